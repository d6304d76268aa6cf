//! Laws of the spelling of records, and of what is read of bytes.
ghost use Rattle.std.specs.Prelude.{◌≡◌, ◌<◌, ◌++◌, ℕ, List, length, take, Ok, Err};
ghost use Rattle.pass_entry.specs.declared.record.Record.{Record};
ghost use Rattle.pass_entry.specs.Lengths.{record_length};
ghost use Rattle.pass_entry.specs.Ranges.{IsInRange};
ghost use Rattle.pass_record.specs.Faults.{Extends};
ghost use Rattle.pass_record.specs.Reading.{record_at};
ghost use Rattle.pass_record.specs.Spelling.{AreBytes, spelling};
ghost use Rattle.pass_record.specs.declared.fault.RecordFault.TheVariants as fault;

/// What is written is read again, whatever follows it.
pub fn written_is_read()
    ensures { (one : Record) (rest : List ℕ) → IsInRange one
        → record_at (spelling one ++ rest) ≡ Ok (one, rest) }
{}

/// The bytes of what is read are those that its writing gives.
pub fn read_is_written()
    ensures { (bytes : List ℕ) (one : Record) (rest : List ℕ) → AreBytes bytes → record_at bytes ≡ Ok (one, rest)
        → (bytes ≡ spelling one ++ rest) × IsInRange one }
{}

/// No spelling begins another one.
pub fn one_spelling()
    ensures { (one other : Record) (x y : List ℕ) → IsInRange one → IsInRange other
        → spelling one ++ x ≡ spelling other ++ y → (one ≡ other) × (x ≡ y) }
{}

/// A spelling has as many bytes as the record's length says.
pub fn spelling_length()
    ensures { (one : Record) → IsInRange one → length (spelling one) ≡ record_length one }
{}

/// A record that is cut at any of its lengths is short.
pub fn cut_is_short()
    ensures { (one : Record) (n : ℕ) → IsInRange one → n < record_length one
        → record_at (take n (spelling one)) ≡ Err fault.Short }
{}

/// Bytes that come behind change neither what was read nor a fault, but for a field that was cut.
pub fn found_stays()
    ensures { (bytes more : List ℕ) → Extends (record_at bytes) more (record_at (bytes ++ more)) }
{}

/// The fault of bytes is one of the other three: want of memory is none of theirs.
pub fn bytes_want_no_memory()
    ensures { (bytes : List ℕ) → ¬ (record_at bytes ≡ Err fault.NoMemory) }
{}
