//! Rows that the definitions themselves answer: what a text means is a contract here, and no run is needed.

ghost use Rattle.git_object.specs.Repository.{empty_repository};
ghost use Rattle.clone_stream.specs.Streams.{IsStreamText};

/// The stream of the empty repository.
pub fn empty_stream() -> &'static [u8]
    ensures { IsStreamText empty_repository result.now }
{
    b"gittuf-stream 1\nend\n"
}
