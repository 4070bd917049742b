// A table filled from bytes.
ghost use Rattle.std.specs.Prelude.{◌≡◌, ◌/◌, ◌≤◌, length, vec_capacity};
ghost use Rattle.records.specs.Bytes.{records};

use records::Record;

// Makes the table that of the records in the bytes, in memory that is reserved for them.
pub fn fill<R: Record + Drop>(table: &mut Vec<R>, bytes: &[u8])
    requires { length bytes.now / R.Record.SIZE ≤ vec_capacity table.old }
    ensures items { table.new.items ≡ records R.Record.reads R.Record.SIZE bytes.now }
    ensures capacity { vec_capacity table.new ≡ vec_capacity table.old }
{
    table.clear();
    let mut rest = bytes;
    // Record by record: of `chunks_exact` each chunk would still be to read, and might not be a record.
    while let Some((record, behind)) = R::first(rest) {
        table.push_reserved(record);
        rest = behind;
    }
}
