//! The law of generated code: it does what the tree does.

ghost use Rattle.txs_gen.specs.Correct.{CodeBehaves};

/// The generated code of a thread does what its tree does, on any replies, in both directions.
pub fn generated_code_behaves()
    ensures { CodeBehaves }
{}
