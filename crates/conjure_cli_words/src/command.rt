// The commands that words ask for.
use ess_rows::Text;

/// What a command `modelling` may be told besides its file and folder.
#[derive(Debug, Drop)]
pub struct Options {
    /// The list behind `--use-repr`, where it is given.
    pub use_repr: Option<Text>,
}

/// A command with what its words say.
#[derive(Debug, Drop)]
pub enum Command {
    /// `modelling`: the folder of the model, the file of the specification, and the options.
    Modelling(Text, Text, Options),
    /// `translate-parameter`: the model, the parameters of the specification, and the file for those of the model.
    Parameter(Text, Text, Text),
    /// `translate-solution`: the model, the parameters of the specification, the solution of the model, and the file for
    /// that of the specification.
    Solution(Text, Text, Text, Text),
    /// `validate-solution`: the specification, its parameters and a solution.
    Validate(Text, Text, Text),
    /// `selftest`: the number that the self-test is made from.
    Selftest(u64),
}
