// From bytes to a program, or the first fault.
ghost use Rattle.std.specs.Prelude.{◌≡◌, ◌≢◌, ◌^◌, ◌<◌, IfOk, IfErr, length, Ok, Err, Some, None};
ghost use Rattle.vt_grammar.specs.Grammar.{Spells};
ghost use Rattle.vt_grammar.specs.declared.stop.Stop.TheVariants.{Fault, NoMemory as WantOfMemory};
ghost use Rattle.vt_model.specs.Base.{counts_of};
ghost use Rattle.vt_query.specs.WellFormed.{IsWellFormed};
ghost use Rattle.vt_query.specs.Narrow.{IsNarrow};
ghost use Rattle.vt_vql.specs.Rules.{file as grammar};
ghost use Rattle.vt_vql.specs.Resolving.{narrow_program};
ghost use Rattle.vt_vql.specs.Queries.{Accepts, IsFaultOf};
ghost use Rattle.vt_vql.specs.declared.tree.FileTree.{FileTree};
ghost use Rattle.vt_vql.specs.declared.fault.Stuck.TheVariants.{NotNarrow};

use crate::FileTree;
use crate::fault::{QueryFault, Stuck};
use crate::narrow::narrow_program;
use crate::reader::file;
use std::alloc::Global;
use vt_grammar::{Lexeme, Spelled, Stop, whole};
use vt_meta::Metamodel;
use vt_query::Program;
use vt_tokens::{TokenFault, lexemes, tokens};

impl Spelled for FileTree {
    ghost use Rattle.std.specs.Prelude.{refl};
    ghost use Rattle.vt_vql.specs.Rules as rule;
    ghost use Rattle.vt_vql.specs.Inside.Factored as one;
    ghost use Rattle.vt_vql.specs.Inside.SameFile.{same_file};

    ghost grammar = { rule.file };

    ghost factored = { one.file };

    ghost decided = { refl };

    ghost same = { same_file };
}

// The file that lexemes spell.
fn tree_of(alloc: Global, lexemes: &[Lexeme]) -> Result<FileTree, Stop>
    ensures accepted { IfOk result (λ tree. Spells grammar lexemes.now tree) }
    ensures only { (tree : FileTree) → Spells grammar lexemes.now tree → result ≢ Err WantOfMemory
        → result ≡ Ok tree }
{
    whole(lexemes, file(alloc, lexemes))
}

// The program of the file that lexemes spell.
fn program_of(alloc: Global, meta: &Metamodel, lexemes: &[Lexeme]) -> Result<Program, Stuck>
    ensures accepted { IfOk result (λ program. (tree : FileTree) × Spells grammar lexemes.now tree
        × (narrow_program meta.now tree ≡ Some program)) }
    ensures refused { result ≡ Err NotNarrow → (tree : FileTree) → Spells grammar lexemes.now tree
        → narrow_program meta.now tree ≡ None }
{
    match tree_of(alloc, lexemes) {
        Ok(tree) => narrow_program(alloc, meta, &tree),
        Err(Stop::Fault(_)) => Err(Stuck::NotNarrow),
        Err(Stop::NoMemory) => Err(Stuck::NoMemory),
    }
}

/// The program that bytes spell over a metamodel, or the file's first fault.
pub fn read_queries(alloc: Global, meta: &Metamodel, bytes: &[u8]) -> Result<Program, QueryFault>
    requires { length bytes.now < 2 ^ 32 }
    // What is accepted is what the bytes spell.
    ensures accepted { IfOk result (λ program. Accepts meta.now bytes.now program) }

    // The fault is the file's first. Want of memory may stand for any answer.
    ensures refused { IfErr result (λ fault. IsFaultOf meta.now bytes.now fault) }

    // Names differ, numbers of variables, classes and features are there, and the parameters are
    // among the variables.
    ensures well_formed { IfOk result (λ program. IsWellFormed meta.now program) }

    // Each pattern has one body, and each of its variables stands in a constraint.
    ensures narrow { IfOk result (λ program. IsNarrow (counts_of meta.now) program) }
{
    let Ok(text) = str::from_utf8(bytes) else {
        return Err(QueryFault::NotText { place: 0 });
    };
    let tokens = match tokens(alloc, text) {
        Ok(tokens) => tokens,
        Err(TokenFault::Bad { line }) => return Err(QueryFault::BadToken { line }),
        Err(TokenFault::NoMemory) => return Err(QueryFault::NoMemory),
    };
    let lexemes = lexemes(alloc, text, tokens.as_slice())?;
    match program_of(alloc, meta, lexemes.as_slice()) {
        Ok(program) => Ok(program),
        Err(Stuck::NotNarrow) => Err(QueryFault::NotBuilt { place: 0 }),
        Err(Stuck::NoMemory) => Err(QueryFault::NoMemory),
    }
}
