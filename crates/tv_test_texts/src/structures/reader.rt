//! The program of all rows, and its vocabulary.

ghost use Rattle.std.specs.Prelude.{IfOk};
ghost use Rattle.tv_model.specs.Program.{program_of};
ghost use Rattle.tv_model.specs.Valid.{IsValid};
ghost use Rattle.tv_tvs.specs.Meaning.{IsVocabulary};

use std::alloc::Global;
use std::test::Fail;
use tv_model::{Program, Vocab};
use tv_test_reader::PREDICATES;
use tv_tvs::valid_programs_fit;

/// The program of all rows.
pub fn program(alloc: Global) -> Result<Program, Fail>
    ensures { IfOk result (λ p. IsValid (program_of p)) }
{
    tv_test_reader::program(alloc, PREDICATES, "")
}

/// The predicates of all rows.
#[tactic(auto, using(crate::proofs::Vocabularies::vocabulary_fits))]
pub fn vocabulary(alloc: Global) -> Result<Vocab, Fail>
    ensures { IfOk result IsVocabulary }
{
    valid_programs_fit();
    let Program { vocab, .. } = program(alloc)?;
    Ok(vocab)
}
