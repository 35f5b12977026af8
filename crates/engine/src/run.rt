// A list of steps in one slice, given to the record in a lent buffer. `step` gives one.
ghost use Rattle.spec_rack.specs.Lists.{RunResult};

// Gives the step records of a list from `at` on, one after the other, while there is room for replies. Soundness is decided once: an accepted
// step keeps it, and a refused one changes nothing.
pub fn run(rec: &mut [u8], list: &[u8], at: &mut usize, replies: &mut [u64]) -> usize
    ensures { RunResult rec.old list.now at.old replies.old result rec.new at.new replies.new }
{
    let sound = record_soundness::sound(rec);
    let mut place = *at;
    let mut made = 0;
    for reply in replies.iter_mut() {
        if list.len() <= place {
            break;
        }
        let end = wire_frames::frame_end_within(list, place);
        *reply = super::step::step_result(rec, sound, &list[place..end]);
        place = end;
        made += 1;
    }
    *at = place;
    made
}
