// The frame reader: which refusal a frame call meets, and the room that an accepted frame asks for.
ghost use Rattle.std.specs.Prelude.{◌≡◌};
ghost use Rattle.frame_bytes.specs.Frame.{read_frame};
ghost use Rattle.frame_bytes.specs.Internal.{check_of, frame_room};
ghost use Rattle.frame_bytes.specs.Room.{answer_coord_size, read_call};
ghost use Rattle.probe.specs.Reader as Reader;

use frame_bytes::accepted::AcceptedFrame;
use frame_bytes::reader::check_frame;
use frame_bytes::room::{check_call, frame_room};

// The refusal's number; 0 where there is none.
#[unsafe(no_mangle)]
pub extern "C" fn probe_check_call(frame: &[u8], out: usize) -> u8
    ensures { result ≡ Reader.check_code (check_of (read_call frame.now out)) }
{
    match check_call(frame, out) {
        Err(refusal) => u8::from(refusal),
        Ok(()) => 0,
    }
}

// 0 for a frame that is refused.
#[unsafe(no_mangle)]
pub extern "C" fn probe_frame_room(frame: &[u8]) -> usize
    ensures { result ≡ frame_room answer_coord_size (read_frame frame.now) }
{
    match check_frame(frame) {
        Err(_) => 0,
        Ok(()) => frame_room(AcceptedFrame { bytes: frame }),
    }
}
