// The two passes over the frames of a message that was judged.
ghost use Rattle.std.specs.Prelude.{length};
ghost use Rattle.reading.specs.Passes.{CountsRecords, Roomy, WritesFrames};

// How many records n frames have.
pub(crate) fn count_records(frames: &[u8], n: u8) -> usize
    ensures { CountsRecords n frames.now result }
{
    let mut records: usize = 0;
    let mut left = frames;
    for _ in 0..n {
        let Some((head, _, behind)) = frame_records::find_frame(left) else {
            return records;
        };
        records += head.count as usize + 1;
        left = behind;
    }
    records
}

// Writes the records of n frames, those of each where those of the one before it ended.
pub(crate) fn write_frames(out: &mut [u8], frames: &[u8], n: u8)
    requires { Roomy n frames.now (length out.old) }
    ensures { WritesFrames n frames.now out.old out.new }
{
    let mut pos: usize = 0;
    let mut left = frames;
    for _ in 0..n {
        let Some((head, contacts, behind)) = frame_records::find_frame(left) else {
            return;
        };
        let written = frame_records::write_frame(&mut out[pos..], head, contacts);
        pos += written.bytes;
        left = behind;
    }
}
