// Comments, processing instructions and the declaration, and where the next event begins behind them. A misc is one of the three.
#![tactic(auto)]

pub mod begins;
pub mod declaration;
pub mod instructions;
