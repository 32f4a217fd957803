//! What a run gives: the outgoing lines of its calls and its report, by their definition.
//!
//! Layer: A run.
//!
//! A run is its incoming lines, its orders and its number of periods; all else follows from these. The crate has no
//! code that runs. Its definitions build on those of the calls (`call_leg`), the switchboard (`switchboard`) and the
//! report (`farm_report`). The contracts of the crates that process runs cite them.
//!
//! Definitions: `specs/Run.antt` (a run and the periods of its calls, from the whole list of orders, all ends and
//! spans), `specs/Lines.antt` (its outgoing lines), `specs/Facts.antt` (its report), `specs/Mark.antt` (its mark, and a
//! run in two parts), `specs/Now.antt` (the same from what is known while the run goes on). `laws` has the laws that
//! lead from there to what the whole run gives.
#![tactic(auto)]

pub mod laws;
