//! Runs that are played: whole scripts, lies, events that aren't allowed, and a new epoch.

mod allowed;
mod epochs;
mod lies;
mod scripts;
mod whole;
