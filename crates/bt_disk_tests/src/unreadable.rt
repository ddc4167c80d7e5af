//! A device that says how long it is, and of which no read succeeds but one of its first bytes.
ghost use Rattle.std.specs.Prelude.{◌≡◌};
ghost use Rattle.bt_disk.specs.Limits.{one_more};

use bt_disk::{DeviceFault, Disk};

#[derive(Drop)]
pub struct Unreadable {
    len: u64,
    front: Vec<u8>,
    faults: u64,
}

impl Unreadable {
    pub fn new(len: u64, front: Vec<u8>) -> Self {
        Unreadable {
            len,
            front,
            faults: 0,
        }
    }

    fn fault(&mut self) -> DeviceFault
        ensures { self.new ≡ record self.old { faults = one_more self.old.faults } }
    {
        self.faults = self.faults.saturating_add(1);
        DeviceFault
    }
}

impl Disk for Unreadable {
    ghost use Rattle.bt_disk.specs.Conduct.{untrusted};

    ghost conduct = { untrusted (λ d. d.faults) };

    ghost reads_image = { λ d h. absurd h };

    fn len(&mut self) -> Result<u64, DeviceFault> {
        Ok(self.len)
    }

    fn read_at(&mut self, at: u64, out: &mut [u8]) -> Result<usize, DeviceFault> {
        let count = out.len();
        if at != 0 || count > self.front.len() {
            return Err(self.fault());
        }
        out.copy_from_slice(&self.front[..count]);
        Ok(count)
    }

    fn write_at(&mut self, _: u64, _: &[u8]) -> Result<(), DeviceFault> {
        Err(self.fault())
    }

    fn set_len(&mut self, _: u64) -> Result<(), DeviceFault> {
        Err(self.fault())
    }

    fn sync(&mut self) -> Result<(), DeviceFault> {
        Err(self.fault())
    }
}
