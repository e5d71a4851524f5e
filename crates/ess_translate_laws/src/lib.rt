//! What the translations stand for, over files as they are read: definitions, and worked examples of them.
#![tactic(auto)]
