// From the bytes of a metamodel and of a model to the model.
ghost use Rattle.std.specs.Prelude.{◌≡◌, IfOk, IfErr, Ok, Err};
ghost use Rattle.vt_model.specs.Base.{base_of};
ghost use Rattle.vt_delta.specs.Deltas.{IsNet};
ghost use Rattle.vt_model.specs.Model.{empty_model};
ghost use Rattle.vt_cli.specs.Result.{metamodel_of, model_of, loaded_from};
ghost use Rattle.vt_cli.specs.Inside.Prepared.{AreSmall, IsOfFiles};
ghost use Rattle.vt_cli.specs.Inside.Seen.{loaded_of};

use crate::ending::{Outcome, Role};
use crate::fetching::text_of;
use crate::refusals;
use std::alloc::Global;
use vt_base::{List, NoMemory};
use vt_delta::BaseDelta;
use vt_meta::{Metamodel, read_meta};
use vt_model_json::{read_model, read_store};
use vt_store::Store;

// The metamodel, or the outcome of its first fault.
fn metamodel(alloc: Global, bytes: &[u8]) -> Result<Result<Metamodel, Outcome>, NoMemory>
    ensures due { IfOk result (λ judged. judged ≡ metamodel_of bytes.now) }
    ensures suits { IfOk result (λ judged. IfErr judged (λ outcome. IsOfFiles outcome.ending)) }
{
    match read_meta(alloc, bytes) {
        Ok(meta) => Ok(Ok(meta)),
        Err(fault) => Ok(Err(refusals::metamodel(alloc, fault)?)),
    }
}

// The model of a metamodel, or the outcome of its first fault.
fn model(alloc: Global, meta: &Metamodel, bytes: &[u8]) -> Result<Result<Store, Outcome>, NoMemory>
    ensures of { IfOk result (λ judged. IfOk judged (λ store. store.meta ≡ meta.now)) }
    ensures accepted { IfOk result (λ judged. IfOk judged (λ store.
        model_of meta.now bytes.now ≡ Ok store.model)) }
    ensures refused { IfOk result (λ judged. IfErr judged (λ outcome.
        model_of meta.now bytes.now ≡ Err outcome)) }
    ensures suits { IfOk result (λ judged. IfErr judged (λ outcome. IsOfFiles outcome.ending)) }
{
    match read_store(alloc, meta, bytes) {
        Ok(store) => Ok(Ok(store)),
        Err(fault) => Ok(Err(refusals::model(alloc, fault)?)),
    }
}

/// The model of the texts of a command, or the outcome of the first document that is refused. The
/// metamodel is judged before the model.
pub(crate) fn load(
    alloc: Global,
    texts: &[(Role, List<u8>)],
) -> Result<Result<Store, Outcome>, NoMemory>
    requires { AreSmall texts.now }
    ensures accepted { IfOk result (λ judged. IfOk judged (λ store.
        loaded_from texts.now ≡ Ok (loaded_of store))) }
    ensures refused { IfOk result (λ judged. IfErr judged (λ outcome.
        loaded_from texts.now ≡ Err outcome)) }
    ensures suits { IfOk result (λ judged. IfErr judged (λ outcome. IsOfFiles outcome.ending)) }
{
    match metamodel(alloc, text_of(texts, Role::Metamodel))? {
        Ok(meta) => model(alloc, &meta, text_of(texts, Role::Model)),
        Err(outcome) => Ok(Err(outcome)),
    }
}

// The model of a metamodel, with what is new in it, or the outcome of its first fault.
fn new_model(
    alloc: Global,
    meta: &Metamodel,
    bytes: &[u8],
) -> Result<Result<(Store, BaseDelta), Outcome>, NoMemory>
    ensures of { IfOk result (λ judged. IfOk judged (λ read. read.0.meta ≡ meta.now)) }
    ensures accepted { IfOk result (λ judged. IfOk judged (λ read.
        model_of meta.now bytes.now ≡ Ok read.0.model)) }
    ensures loaded { IfOk result (λ judged. IfOk judged (λ read.
        IsNet (base_of read.0.meta empty_model) (base_of read.0.meta read.0.model) read.1)) }
    ensures refused { IfOk result (λ judged. IfErr judged (λ outcome.
        model_of meta.now bytes.now ≡ Err outcome)) }
    ensures suits { IfOk result (λ judged. IfErr judged (λ outcome. IsOfFiles outcome.ending)) }
{
    match read_model(alloc, meta, bytes) {
        Ok(read) => Ok(Ok(read)),
        Err(fault) => Ok(Err(refusals::model(alloc, fault)?)),
    }
}

/// The same, with the model's difference from the empty one.
pub(crate) fn load_new(
    alloc: Global,
    texts: &[(Role, List<u8>)],
) -> Result<Result<(Store, BaseDelta), Outcome>, NoMemory>
    requires { AreSmall texts.now }
    ensures accepted { IfOk result (λ judged. IfOk judged (λ read.
        loaded_from texts.now ≡ Ok (loaded_of read.0))) }
    ensures loaded { IfOk result (λ judged. IfOk judged (λ read.
        IsNet (base_of read.0.meta empty_model) (base_of read.0.meta read.0.model) read.1)) }
    ensures refused { IfOk result (λ judged. IfErr judged (λ outcome.
        loaded_from texts.now ≡ Err outcome)) }
    ensures suits { IfOk result (λ judged. IfErr judged (λ outcome. IsOfFiles outcome.ending)) }
{
    match metamodel(alloc, text_of(texts, Role::Metamodel))? {
        Ok(meta) => new_model(alloc, &meta, text_of(texts, Role::Model)),
        Err(outcome) => Ok(Err(outcome)),
    }
}
