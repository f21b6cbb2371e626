//! The command `hcheck`: `check` for the condition of hybrid machines.
//!
//! It takes the words of `check`.
use crate::check::CHECK_ARGUMENTS;
use crate::synopsis::Synopsis;

/// How it is called.
pub(crate) const HCHECK: Synopsis = Synopsis {
    name: "hcheck",
    arguments: CHECK_ARGUMENTS,
    usage: "pgv hcheck DESC --cert FILE [--budget K]\n",
};
