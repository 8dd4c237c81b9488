// The node lets out what its newest key has proved, a packet at a time.
ghost use Rattle.std.specs.Prelude.{◌≡◌, ◌≤◌};
ghost use Rattle.packet.specs.Writing.{filled};
ghost use Rattle.playback.specs.Releasing.{LetsOut, out_length, told_out, wrote};
ghost use Rattle.playback.specs.Stages.{part_of};
ghost use Rattle.playback.specs.Parts.{receiving};
ghost use Rattle.node.specs.Receivers.{meaning};

use crate::stage::Stage;
use cipher::Block;
use node::{Receiver, Released};
use packet::MAX_PAYLOAD;

// A buffer of this length is never refused. A release is a plain record, so its bound is told here and not in its type.
fn let_out<B: Block>(
    receiver: &mut Receiver<B>,
    payload: &mut [u8; MAX_PAYLOAD],
) -> Option<Released>
    ensures lets { LetsOut B.make (receiving (meaning receiver.old)) (receiving (meaning receiver.new)) (told_out result payload.new) }
    ensures buffer { payload.new ≡ filled (wrote (told_out result payload.new)) payload.old }
    ensures within { out_length result ≤ 64 }
{
    receiver.release(payload).unwrap()
}

impl<B: Block> Stage<B> {
    // The next packet whose key is known, with its payload in the start of the buffer; none where there is none left.
    pub(crate) fn release(self, payload: &mut [u8; MAX_PAYLOAD]) -> (Stage<B>, Option<Released>)
        ensures lets { LetsOut B.make (part_of self) (part_of result.0) (told_out result.1 payload.new) }
        ensures buffer { payload.new ≡ filled (wrote (told_out result.1 payload.new)) payload.old }
        ensures within { out_length result.1 ≤ 64 }
    {
        match self {
            Stage::Receiving(mut receiver) => {
                let released = let_out(&mut receiver, payload);
                (Stage::Receiving(receiver), released)
            }
            Stage::Silent => (Stage::Silent, None),
            Stage::Asking(node) => (Stage::Asking(node), None),
        }
    }
}
