//! The command `hybrid`: runs of images as guests under a hybrid monitor.
//!
//! It takes the words of `run`.
use crate::run::RUN_ARGUMENTS;
use crate::synopsis::Synopsis;

/// How it is called.
pub(crate) const HYBRID: Synopsis = Synopsis {
    name: "hybrid",
    arguments: RUN_ARGUMENTS,
    usage: "pgv hybrid DESC CERT IMAGE.. --grant G --steps N [--slice K]\n",
};
