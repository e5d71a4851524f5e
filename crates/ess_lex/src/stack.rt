ghost use Rattle.std.specs.Prelude.{◌≡◌, ◌<◌, ◌≤◌, Bool, true, List, [], ◌∷◌, length, take, reverse, false};
ghost use Rattle.std.specs.Bool.{OnTrue, OnFalse};
ghost use Rattle.ess_grammar.specs.Words.{Text};
ghost use Rattle.ess_grammar.specs.Kinds.{token};
ghost use Rattle.ess_grammar.specs.Load.{Item, bracket, plain, closed, down_to_bracket, loaded_by, closes_operand};
ghost use Rattle.ess_lex.specs.Stacks.{falls, done_by};

use crate::Kind;

/// The largest load of a text that is read.
const LARGEST_LOAD: usize = 250;

/// What a token does to the items under way.
#[derive(Clone, Copy)]
pub(crate) enum Effect {
    /// Opens a bracket, which is that of an index or an application directly behind `)` or `]`.
    OpenOrApply,
    Open,
    Close,
    Push,
    /// Ends what stands above the innermost open bracket.
    EndItem,
    Nothing,
}

/// The items under way, of which some are open brackets.
#[derive(Drop)]
pub(crate) struct Stack {
    /// For each open bracket, the innermost last, how many items stand below it.
    below: [usize; LARGEST_LOAD],
    brackets: usize,
    height: usize,
    /// Was the last token `)` or `]`?
    after_operand: bool,
    ghost room: { height ≤ 250 },
    ghost nested: { brackets ≤ height },
    ghost falling: { falls (reverse (take brackets below)) height ≡ true },
}

impl Stack {
    ghost use Rattle.ess_lex.specs.StackItems.{items_of};

    pub(crate) fn new() -> Stack
        ensures items { items_of result ≡ [] }
        ensures after_operand { result.after_operand ≡ false }
    {
        Stack {
            below: [0; LARGEST_LOAD],
            brackets: 0,
            height: 0,
            after_operand: false,
        }
    }

    /// Takes a token, and answers whether the load after it is at most 250. Where it isn't, the
    /// stack is of no further use.
    pub(crate) fn load(&mut self, kind: Kind) -> bool
        ensures items { OnTrue result ((bytes : Text) → items_of self.new ≡ loaded_by (token kind bytes) self.old.after_operand (items_of self.old)) }
        ensures after_operand { OnTrue result ((bytes : Text) → self.new.after_operand ≡ closes_operand (token kind bytes)) }
        ensures full { OnFalse result ((bytes : Text) → 250 < length (loaded_by (token kind bytes) self.old.after_operand (items_of self.old))) }
    {
        let after_operand = self.after_operand;
        self.after_operand = closes_operand(kind);
        match effect_of(kind) {
            Effect::OpenOrApply => (!after_operand || self.push()) && self.push_bracket(),
            Effect::Open => self.push_bracket(),
            Effect::Close => {
                self.close();
                true
            }
            Effect::Push => self.push(),
            Effect::EndItem => {
                self.end_item();
                true
            }
            Effect::Nothing => true,
        }
    }

    /// Pushes an item that is no bracket, unless the stack is full.
    fn push(&mut self) -> bool
        ensures pushed { OnTrue result (items_of self.new ≡ plain ∷ items_of self.old) }
        ensures full { OnFalse result (length (items_of self.old) ≡ 250) }
        ensures after_operand { self.new.after_operand ≡ self.old.after_operand }
    {
        if self.height == LARGEST_LOAD {
            return false;
        }
        self.height += 1;
        true
    }

    /// Pushes an open bracket, unless the stack is full.
    fn push_bracket(&mut self) -> bool
        ensures pushed { OnTrue result (items_of self.new ≡ bracket ∷ items_of self.old) }
        ensures full { OnFalse result (length (items_of self.old) ≡ 250) }
        ensures after_operand { self.new.after_operand ≡ self.old.after_operand }
    {
        if self.height == LARGEST_LOAD {
            return false;
        }
        self.below[self.brackets] = self.height;
        self.brackets += 1;
        self.height += 1;
        true
    }

    /// Removes the innermost open bracket with all items above it, where there is one.
    fn close(&mut self)
        ensures items { items_of self.new ≡ closed (items_of self.old) }
        ensures after_operand { self.new.after_operand ≡ self.old.after_operand }
    {
        if self.brackets > 0 {
            self.brackets -= 1;
            self.height = self.below[self.brackets];
        }
    }

    /// Removes the items above the innermost open bracket, or all where no bracket is open.
    fn end_item(&mut self)
        ensures items { items_of self.new ≡ down_to_bracket (items_of self.old) }
        ensures after_operand { self.new.after_operand ≡ self.old.after_operand }
    {
        self.height = if self.brackets > 0 {
            self.below[self.brackets - 1] + 1
        } else {
            0
        };
    }
}

/// Is the token `)` or `]`?
fn closes_operand(kind: Kind) -> bool
    ensures { (bytes : Text) → result ≡ closes_operand (token kind bytes) }
{
    matches!(kind, Kind::CloseRound | Kind::CloseSquare)
}

/// What a token does.
fn effect_of(kind: Kind) -> Effect
    ensures { (bytes : Text) (b : Bool) (items : List Item) → loaded_by (token kind bytes) b items ≡ done_by result b items }
{
    match kind {
        Kind::OpenRound | Kind::OpenSquare => Effect::OpenOrApply,
        Kind::OpenCurly => Effect::Open,
        Kind::CloseRound | Kind::CloseSquare | Kind::CloseCurly => Effect::Close,
        Kind::Dot | Kind::Bar | Kind::Exclamation | Kind::MapsTo | Kind::Of | Kind::From =>
            Effect::Push,
        Kind::Equal
        | Kind::NotEqual
        | Kind::Less
        | Kind::LessEqual
        | Kind::Greater
        | Kind::GreaterEqual => Effect::Push,
        Kind::Plus | Kind::Minus | Kind::Star | Kind::Slash | Kind::Percent | Kind::StarStar =>
            Effect::Push,
        Kind::Conjunction | Kind::Disjunction | Kind::Implies | Kind::Iff => Effect::Push,
        Kind::LexLess | Kind::LexLessEqual | Kind::LexGreater | Kind::LexGreaterEqual =>
            Effect::Push,
        Kind::In
        | Kind::Subset
        | Kind::SubsetEq
        | Kind::Supset
        | Kind::SupsetEq
        | Kind::Union
        | Kind::Intersect => Effect::Push,
        Kind::Comma | Kind::Semicolon => Effect::EndItem,
        Kind::Language | Kind::Given | Kind::Find | Kind::Letting => Effect::EndItem,
        Kind::Where | Kind::Such | Kind::Minimising | Kind::Maximising => Effect::EndItem,
        _ => Effect::Nothing,
    }
}
