ghost use Rattle.rr_images.specs.Codec.{Codec as CodecOf};

/// How the records, directories and chains of files are read: which worlds there are, how a record's line changes one,
/// which chains a directory names, and which world they spell. It has no code.
pub trait Codec {
    /// What that is.
    ghost codec: { CodecOf };
}
