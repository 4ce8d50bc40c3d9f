// Text into bytes. Every function answers for every argument: it puts as much as there is room for.
#![tactic(auto)]

pub mod text;
