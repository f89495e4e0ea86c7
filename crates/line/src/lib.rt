//! Lines: what crosses the radio. The set-up of a pit, the seven kinds of lines, their reader and writers.

#![tactic(auto)]

pub mod answer;
pub mod call;
pub mod cert;
pub mod charge;
pub mod committed;
pub mod kind;
pub mod layout;
pub mod lines;
pub mod order;
pub mod pit;
pub mod record;
pub mod sheet;
mod taken;
