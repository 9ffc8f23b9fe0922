// Setting a status bit: the only change that an access makes to registers by itself.
ghost use Rattle.std.specs.Prelude.{◌≡◌};
ghost use Rattle.register_header.specs.definitions.Register.{status_at, status_mask, set_status};

use rack::{Kind, Node};
use register_header::pci_regs::{
    SEC_STATUS, STATUS, STATUS_REC_MASTER_ABORT, STATUS_REC_TARGET_ABORT, STATUS_SIG_TARGET_ABORT,
};
use register_header::{Side, StatusBit};

fn status_at(kind: Kind, side: Side) -> usize
    ensures { result ≡ status_at kind side }
{
    if side == Side::Secondary && kind.is_bridge() {
        SEC_STATUS + 1
    } else {
        STATUS + 1
    }
}

fn status_mask(bit: StatusBit) -> u8
    ensures { result ≡ status_mask bit }
{
    match bit {
        StatusBit::SignaledTargetAbort => STATUS_SIG_TARGET_ABORT,
        StatusBit::ReceivedTargetAbort => STATUS_REC_TARGET_ABORT,
        StatusBit::ReceivedMasterAbort => STATUS_REC_MASTER_ABORT,
    }
}

pub fn set_status(part: &mut [u8], n: Node, side: Side, bit: StatusBit)
    ensures { part.new ≡ set_status n part.old side bit }
{
    let at = status_at(n.kind, side);
    if at < part.len() {
        part[at] |= status_mask(bit);
    }
}
