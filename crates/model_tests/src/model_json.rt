//! Documents with the answer that each must give, and the rows of the models that they make.
use std::alloc::Global;
use std::process::Abort;
use std::test::Fail;
use vt_meta::{Metamodel, read_meta};
use vt_model_json::{ModelFault, read_model, write_model};

mod dumps;
mod faults;
mod rows;

// The metamodel that a document declares.
fn metamodel(alloc: Global, text: &str) -> Result<Metamodel, Fail> {
    Ok(read_meta(alloc, text.as_bytes())?)
}

// The dump of the model that a document makes, or the document's fault.
fn answer(alloc: Global, meta: &Metamodel, text: &[u8]) -> Result<String, Fail> {
    let store = match read_model(alloc, meta, text) {
        Ok((store, _)) => store,
        Err(ModelFault::NotJson) => return Ok(String::from_str(alloc, "no JSON")?),
        Err(ModelFault::BadShape) => return Ok(String::from_str(alloc, "bad shape")?),
        Err(ModelFault::Item { index, why }) => return Ok(format!(in alloc; "{index} {why:?}")?),
        Err(ModelFault::NoMemory) => return Err("no memory".into()),
    };
    let dump = write_model(alloc, &store)?;
    Ok(String::from_str(alloc, str::from_utf8(dump.as_slice())?)?)
}

// In each line the document before the arrow gives what is behind it, and a dump gives itself.
fn assert_answers(rt: &impl Abort, alloc: Global, meta: &str, table: &str) -> Result<(), Fail> {
    let meta = metamodel(alloc, meta)?;
    for line in table.lines() {
        let (text, wanted) = line.split_once('→').ok_or("no answer")?;
        assert_eq!(rt;
            answer(alloc, &meta, text.as_bytes())?.as_str(),
            wanted,
            "{line}"
        );
        if wanted.starts_with('{') {
            assert_eq!(rt;
                answer(alloc, &meta, wanted.as_bytes())?.as_str(),
                wanted,
                "{line}"
            );
        }
    }
    Ok(())
}
