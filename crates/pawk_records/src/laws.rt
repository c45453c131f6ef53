//! The laws of records.

ghost use Rattle.std.specs.Prelude.{◌≤◌, length};
ghost use Rattle.pawk_records.specs.Records.{RecordsLaw};
ghost use Rattle.pawk_records.specs.Begins.{BeginsLaw};

/// Bytes are cut into records in one way alone. By one byte: no record holds it, and the bytes are
/// each record followed by it; only the last may lack it, and then is not empty. By an empty `RS`:
/// the bytes are newlines, a record, two or more newlines, a record, and so on to newlines; no
/// record is empty, begins or ends with a newline or holds two adjacent ones.
pub fn records_law(rs: &[u8], text: &[u8])
    ensures { RecordsLaw rs.now text.now }
{
    let _ = rs;
    let _ = text;
}

/// The places at which a text's records begin are, by one byte, the first byte and each byte after
/// it; by an empty `RS` each byte that is no newline and follows two, or nothing but newlines. They
/// rise, there are as many as records, and each record's bytes stand where it begins.
pub fn begins_law(rs: &[u8], text: &[u8])
    ensures { BeginsLaw rs.now text.now }
{
    let _ = rs;
    let _ = text;
}
