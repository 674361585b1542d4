// A rehearsal that is watched.
use crate::cases::{ROUND, flat, round_of};
use claims::call::Call;
use claims::reply::Reply;
use rig::rehearse::{Watch, rehearse_watched};
use supply::mains::Mains;
use supply::supply::Supply;

static STEPS: [Call; 7] = [Call::Step; 7];

// How often each count was told, and how many replies were those of a step that was
// attempted.
#[derive(Drop)]
struct Told {
    counts: [u8; 8],
    attempted: u8,
}

impl Watch for Told {
    ghost tells = { λ _ _ _ _. Unit {0} };

    fn made(&mut self, calls: usize, reply: Reply) {
        if let Some(times) = self.counts.get_mut(calls) {
            *times = times.wrapping_add(1);
        }
        if matches!(reply, Reply::Step(Ok(_))) {
            self.attempted = self.attempted.wrapping_add(1);
        }
    }
}

// What is told of seven steps with room for so many replies.
fn told_in(replies: &mut [Reply]) -> Told {
    let mut told = Told {
        counts: [0; 8],
        attempted: 0,
    };
    let model = flat();
    let round = round_of(&model, ROUND, &[5]);
    let _ = rehearse_watched(Mains::new(), &round, &STEPS, replies, &mut told);
    told
}

// Whoever watches is told of each call that is made, and of its reply: the sixth
// step ends the round, so a seventh is refused.
#[test]
fn told_of_each(rt: HostRuntime) {
    let five = told_in(&mut [Reply::Count(0); 5]);
    assert_eq!(rt; five.counts, [0, 1, 1, 1, 1, 1, 0, 0]);
    assert_eq!(rt; five.attempted, 5);
    let seven = told_in(&mut [Reply::Count(0); 7]);
    assert_eq!(rt; seven.counts, [0, 1, 1, 1, 1, 1, 1, 1]);
    assert_eq!(rt; seven.attempted, 6);
}
