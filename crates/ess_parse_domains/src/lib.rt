//! The steps of the parser's machine in domains: their words, their attributes and ranges, and what a token does behind a
//! domain that goes no further, after the domains of the grammar of Essence ('Essence: A constraint language for specifying
//! combinatorial problems', Constraints 13, 2008; attributes as in the Conjure manual).
//!
//! Each function is the step of the definition in `ess_parse_laws` that its clause names (`specs/Domains`,
//! `specs/AttributeSteps`, `specs/AfterDomains`, `specs/AfterOperands`). It answers the state behind the token, or None where
//! no text goes on so; `NoMemory` may come at each that puts something into a row or a box.
#![tactic(auto)]

pub mod attributes;
pub mod ends;
mod products;
pub mod ranges;
pub mod words;
