// What the frame reader accepts: the bytes of a frame, and a part at its place.
ghost use Rattle.std.specs.Prelude.{◌≤◌, length, drop};
ghost use Rattle.frame_bytes.specs.Frame.{read_frame, read_part};
ghost use Rattle.frame_bytes.specs.Internal.{Accepted};

// The bytes of a frame that `check_frame` accepts.
#[derive(Clone, Copy)]
pub struct AcceptedFrame<'a> {
    pub bytes: &'a [u8],
    ghost accepted: { Accepted (read_frame bytes.now) },
}

// A part of a frame, which begins at `at`.
#[derive(Clone, Copy)]
pub struct PartBytes<'a> {
    pub frame: &'a [u8],
    pub at: usize,
    ghost within: { at ≤ length frame.now },
    ghost accepted: { Accepted (read_part (drop at frame.now)) },
}
