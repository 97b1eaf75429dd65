//! Laws on the definitions of messages.
ghost use Rattle.std.specs.Prelude.{◌≡◌, ◌⊎◌, ℕ, List, All};
ghost use Rattle.perfdata_simpleperf.specs.Protobuf.WireFormat.{IsByte, NumberAt, NumberError};
ghost use Rattle.perfdata_simpleperf.specs.Protobuf.Fields.{FieldValue};
ghost use Rattle.perfdata_simpleperf.specs.Protobuf.Messages.{IsFileMessage, FileMessageError};
ghost use Rattle.perfdata_simpleperf.specs.Protobuf.Groups.{GroupAt};
ghost use Rattle.perfdata_simpleperf.specs.Protobuf.Nesting.{IsNestedGroup};
ghost use Rattle.perfdata_simpleperf.specs.FileRecord.{FileValue};
ghost use Rattle.perfdata_simpleperf.specs.Protobuf.Values.{IsFileRecord};
ghost use Rattle.perfdata_sections.specs.declared.decode_error.DecodeError.{DecodeError};

/// Bytes either begin with exactly one varint or have exactly one varint error.
pub fn varint_is_unique()
    ensures value { (bs : List ℕ) (n m : ℕ) (r s : List ℕ) → NumberAt bs n r → NumberAt bs m s → (n ≡ m)
        × (r ≡ s) }
    ensures not_both { (bs : List ℕ) (n : ℕ) (r : List ℕ) (e : DecodeError) → NumberAt bs n r
        → NumberError bs e → ⊥ }
    ensures error { (bs : List ℕ) (e f : DecodeError) → NumberError bs e → NumberError bs f → e ≡ f }
    ensures decided { (bs : List ℕ) → All IsByte bs → ((n : ℕ) × (r : List ℕ) × NumberAt bs n r)
        ⊎ ((e : DecodeError) × NumberError bs e) }
{}

/// Bytes are either a message with exactly one list of fields or have exactly one first error.
pub fn message_is_unique()
    ensures value { (bs : List ℕ) (ps qs : List FieldValue) → IsFileMessage bs ps → IsFileMessage bs qs → ps
        ≡ qs }
    ensures not_both { (bs : List ℕ) (ps : List FieldValue) (e : DecodeError) → IsFileMessage bs ps
        → FileMessageError bs e → ⊥ }
    ensures error { (bs : List ℕ) (e f : DecodeError) → FileMessageError bs e → FileMessageError bs f → e
        ≡ f }
    ensures decided { (bs : List ℕ) → All IsByte bs → ((ps : List FieldValue) × IsFileMessage bs ps)
        ⊎ ((e : DecodeError) × FileMessageError bs e) }
{}

/// A message has exactly one value.
pub fn value_is_unique()
    ensures value { (bs : List ℕ) (v w : FileValue) → IsFileRecord bs v → IsFileRecord bs w → v ≡ w }
    ensures exists { (bs : List ℕ) (ps : List FieldValue) → IsFileMessage bs ps → (v : FileValue)
        × IsFileRecord bs v }
{}

/// The bytes that are skipped as a group are complete fields, with further groups nested at most 99 deep, and
/// the group's end key. All such bytes are skipped as a group.
pub fn groups_nest()
    ensures nests { (n : ℕ) (bs rest : List ℕ) → GroupAt n bs rest → IsNestedGroup n bs rest }
    ensures all { (n : ℕ) (bs rest : List ℕ) → IsNestedGroup n bs rest → GroupAt n bs rest }
{}
