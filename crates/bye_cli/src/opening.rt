//! Documents are opened, read and judged.

ghost use Rattle.std.specs.Prelude.{◌≡◌, ◌≤◌, ◌<◌, ◌^◌, length, IfOk, IfErr, IsErrOf, ◌⊎◌};
ghost use Rattle.bye_io.specs.Counts.{Rose};
ghost use Rattle.bye_io.specs.Files.{Lacks};
ghost use Rattle.bye_cli.specs.Documents.{Holds, HoldsLonger, HasVerdict, Good};
ghost use Rattle.bye_cli.specs.Causes.{IsUnread};
ghost use Rattle.bye_cli.specs.Refusals.{refusal_of};

use crate::reader::Reader;
use bye_io::{Folder, ReadErr, read_all};
use bye_terms::Text;
use bye_words::{Count, Refusal, Role};
use std::alloc::Global;

/// The bytes of a file, where they are at most so many.
fn file_bytes<F: Folder>(
    alloc: Global,
    folder: &mut F,
    name: &Text,
    limit: u64,
) -> Result<Vec<u8>, ReadErr>
    requires { limit < 2 ^ 63 }
    ensures held { IfOk result (λ v. Holds (F.files folder.old) name.now v.items) }
    ensures within { IfOk result (λ v. length v.items ≤ limit) }
    ensures long { IsErrOf result ReadErr.TooLong → HoldsLonger (F.files folder.old) name.now limit }
    ensures failed { IsErrOf result ReadErr.Failed → Rose (F.faults folder.old) (F.faults folder.new) ⊎ Lacks (F.files folder.old) name.now }
    ensures files { F.files folder.new ≡ F.files folder.old }
    ensures later { F.faults folder.old ≤ F.faults folder.new }
{
    if folder.open_file(name).is_err() {
        return Err(ReadErr::Failed);
    }
    read_all(alloc, folder, limit)
}

/// The refusal of a document whose bytes were not read.
fn unread(role: Role, err: ReadErr) -> Refusal
    ensures { result ≡ refusal_of role err }
{
    match err {
        ReadErr::TooLong => Refusal::Limit(role, Count::Bytes),
        ReadErr::Failed => Refusal::ReadFault(role),
        ReadErr::Memory => Refusal::Memory,
    }
}

/// What the document of this name says, as the reader reads it.
pub fn read_document<F: Folder, R: Reader>(
    alloc: Global,
    folder: &mut F,
    reader: &R,
    name: &Text,
) -> Result<R::Read, Refusal>
    ensures read { IfOk result (λ read. HasVerdict (F.files folder.old) (R.kind reader.now, name.now) (Good (R.value read))) }
    ensures unread { IfErr result (IsUnread (F.files folder.old) (R.kind reader.now, name.now) (F.faults folder.old) (F.faults folder.new)) }
    ensures files { F.files folder.new ≡ F.files folder.old }
    ensures later { F.faults folder.old ≤ F.faults folder.new }
{
    let bytes = match file_bytes(alloc, folder, name, reader.limit()) {
        Ok(bytes) => bytes,
        Err(err) => return Err(unread(reader.role(), err)),
    };
    reader.read(alloc, bytes.as_slice())
}
