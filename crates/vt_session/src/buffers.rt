// The transactions that clients have open.
ghost use Rattle.std.specs.Prelude.{◌≡◌, ◌++◌, [], ◌∷◌, false, IfErr, OnErr, OnOk, Ok, is_some, position};
ghost use Rattle.vt_facts.specs.Names.{is_name};
ghost use Rattle.vt_session.specs.Buffers.{begun, buffer_of, changed, without_buffer};
ghost use Rattle.vt_session.specs.Session.{IsDenied};
ghost use Rattle.vt_session.specs.Inside.Order.{HaveOneEach};
ghost use Rattle.vt_session.specs.declared.fault.SessionFault.TheVariants as fault;

use crate::SessionFault;
use std::alloc::Global;
use vt_base::{NoMemory, Text};
use vt_change::{PushFault, Transaction};
use vt_model::{Change, Refusal};

/// So many clients may have a transaction open.
const MOST: usize = 64;

// The changes that a client has given and not committed.
#[derive(Drop)]
pub(crate) struct Buffer {
    pub(crate) client: Text,
    pub(crate) changes: Transaction,
}

// The place of a client's buffer.
pub(crate) fn place_of(buffers: &[Buffer], client: &Text) -> Option<usize>
    ensures { result ≡ position (λ b. is_name b.client client.now) buffers.now }
{
    buffers.iter().position(|buffer| buffer.client == *client)
}

fn add(buffers: &mut Vec<Buffer>, buffer: Buffer) -> Result<(), NoMemory>
    ensures added { OnOk result (buffers.new.items ≡ buffers.old.items ++ buffer ∷ []) }
    ensures unchanged { OnErr result (buffers.new.items ≡ buffers.old.items) }
{
    buffers.push(buffer)?;
    Ok(())
}

// Opens a buffer for a client.
pub(crate) fn begin(
    buffers: &mut Vec<Buffer>,
    alloc: Global,
    client: &Text,
) -> Result<(), SessionFault>
    requires clients { HaveOneEach buffers.old.items }
    ensures done { OnOk result (begun client.now buffers.old.items ≡ Ok buffers.new.items) }
    ensures refused { IfErr result (λ why. IsDenied why (begun client.now buffers.old.items)) }
    ensures unchanged { OnErr result (buffers.new.items ≡ buffers.old.items) }
    ensures clients { HaveOneEach buffers.new.items }
{
    if place_of(buffers, client).is_some() {
        return Err(SessionFault::AlreadyOpen);
    }
    if buffers.len() >= MOST {
        return Err(SessionFault::TooManyOpen);
    }
    let buffer = Buffer {
        client: client.share(),
        changes: Transaction::new(alloc),
    };
    add(buffers, buffer)?;
    Ok(())
}

// Adds a change to a client's buffer.
pub(crate) fn add_change(
    buffers: &mut Vec<Buffer>,
    client: &Text,
    change: Change,
) -> Result<(), SessionFault>
    requires clients { HaveOneEach buffers.old.items }
    ensures done { OnOk result (changed client.now change buffers.old.items ≡ Ok buffers.new.items) }
    ensures refused { IfErr result (λ why. IsDenied why (changed client.now change buffers.old.items)) }
    ensures unchanged { OnErr result (buffers.new.items ≡ buffers.old.items) }
    ensures clients { HaveOneEach buffers.new.items }
{
    let Some(at) = place_of(buffers, client) else {
        return Err(SessionFault::NotOpen);
    };
    match buffers[at].changes.push(change) {
        Ok(()) => Ok(()),
        Err(PushFault::Full) => Err(SessionFault::TooManyChanges),
        Err(PushFault::NoMemory) => Err(SessionFault::NoMemory),
    }
}

// Drops a client's buffer, and tells whether there was one.
pub(crate) fn end(buffers: &mut Vec<Buffer>, client: &Text) -> bool
    requires clients { HaveOneEach buffers.old.items }
    ensures stood { result ≡ is_some (buffer_of client.now buffers.old.items) }
    ensures ended { buffers.new.items ≡ without_buffer client.now buffers.old.items }
    ensures kept { result ≡ false → buffers.new.items ≡ buffers.old.items }
    ensures clients { HaveOneEach buffers.new.items }
{
    match place_of(buffers, client) {
        Some(at) => {
            buffers.remove(at);
            true
        }
        None => false,
    }
}

// Ends the transaction of a client, a change of which is refused.
pub(crate) fn refused(
    buffers: &mut Vec<Buffer>,
    client: &Text,
    at: u32,
    why: Refusal,
) -> SessionFault
    requires clients { HaveOneEach buffers.old.items }
    ensures fault { result ≡ fault.Refused at why }
    ensures ended { buffers.new.items ≡ without_buffer client.now buffers.old.items }
    ensures clients { HaveOneEach buffers.new.items }
{
    end(buffers, client);
    SessionFault::Refused { at, why }
}
