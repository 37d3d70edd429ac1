//! What a statement does whose triggers run bodies, and that editions are apart: definitions and their laws, without code.
//!
//! What is used above: `Stmt` of `specs/Statements.antt`, a statement with all that it fires: the bodies of ordinary and of
//! crossedition triggers, the statements and autonomous transactions in them, and so on, 50 levels deep; and APPLY TRIGGER.
//! `IsApart` of `specs/OtherWorlds.antt`: catalogues that agree for a statement (`Agree`) give it the same answer, which
//! `proofs/ToldApart.antt` proves. `proofs/Examples.antt` computes some cases.
#![tactic(auto)]
