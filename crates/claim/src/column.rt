// The columns of a sheet's linear program: their totals, and the first that is too low.
pub(crate) mod block;
pub(crate) mod conflict;
pub(crate) mod edge;
pub(crate) mod fact;
pub(crate) mod looping;
pub(crate) mod low;
pub(crate) mod miss;
