//! The trees of the tool: specifications as they are read and as they are resolved, values, types, representations and
//! tables of cells. They stand over rows, boxes and texts, so that contracts compare them directly.
#![tactic(auto)]

mod copies;
pub mod domains;
pub mod expressions;
pub mod representations;
pub mod statements;
pub mod tables;
pub mod types;
pub mod values;

pub use domains::{Attr, Dom, FieldDom, Range};
pub use ess_rows::{Boxed, NoMemory, Place, Row, Text};
pub use ess_semantics::words::{Fun, Key, Op1, Op2, ReprKind};
pub use expressions::{Ex, FieldEx, Gen, PairEx, Pat, Step, View};
pub use representations::Repr;
pub use statements::{Spec, Stm};
pub use tables::{Binding, CellDecl, Cells, Env, NamedTable, Table, TypeEntry};
pub use types::{FieldTy, Ty};
pub use values::{FieldVal, Pair, Val};
