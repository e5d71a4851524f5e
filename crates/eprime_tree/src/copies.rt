//! Copies of models and of their parts. Each `copy` answers a tree that equals its source, or `NoMemory` where there is no
//! room for it.
mod expressions;
mod models;
