use crate::{Dom, Ex};
use ess_rows::{Boxed, Row, Text};

/// A statement of a specification. A list in one statement is read as several.
#[derive(Drop, PartialEq)]
pub enum Stm {
    /// `given NAME : DOMAIN`
    Given(Text, Boxed<Dom>),
    /// `given NAME new type enum`
    GivenEnum(Text),
    /// `letting NAME be EXPRESSION`
    LetEx(Text, Boxed<Ex>),
    /// `letting NAME be domain DOMAIN`
    LetDom(Text, Boxed<Dom>),
    /// `letting NAME be new type enum {VALUES}`
    LetEnum(Text, Row<Text>),
    /// `letting NAME be new type of size EXPRESSION`
    LetUnnamed(Text, Boxed<Ex>),
    /// `where EXPRESSION`
    Needs(Boxed<Ex>),
    /// `find NAME : DOMAIN`
    Find(Text, Boxed<Dom>),
    /// `such that EXPRESSION`
    SuchThat(Boxed<Ex>),
    /// `minimising EXPRESSION`
    Minimise(Boxed<Ex>),
    /// `maximising EXPRESSION`
    Maximise(Boxed<Ex>),
}

/// A specification: its statements in order.
#[derive(Drop, PartialEq)]
pub struct Spec {
    pub stms: Row<Stm>,
}
