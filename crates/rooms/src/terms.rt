// What is fixed of a room before it opens.
ghost use Rattle.std.specs.Prelude.{◌≡◌, ◌*◌, ◌≤◌, ◌&&◌, nat_le};

// The terms of a room: its number, its quota, and the names of the boxes that are enrolled, in sixteen places with their
// count beside them. A vector of names would be no plainer: a room's state shows all sixteen places, so that what a draft
// and a room hold would have to be stated by filling the vector up, and each test of a seat would turn its length into a `u8`.
#[derive(Drop)]
pub(crate) struct Terms {
    pub(crate) number: u32,
    pub(crate) quota: u16,
    pub(crate) names: [u32; 16],
    pub(crate) count: u8,
    ghost few: { count ≤ 16 },
    ghost quotaed: { 1 ≤ quota },
    ghost small: { count * quota ≤ 256 },
}

impl Terms {
    // How many letters the boxes may post together, and so how many places each seat has in either letter table.
    pub(crate) fn places(&self) -> u16
        ensures { result ≡ self.now.count * self.now.quota }
    {
        self.count as u16 * self.quota
    }

    // Whether both letter tables have all places of every seat.
    pub(crate) fn suffice(&self, logs: usize, holds: usize) -> bool
        ensures { let whole = self.now.count * (self.now.count * self.now.quota) in result ≡ (nat_le whole logs && nat_le whole holds) }
    {
        let whole = self.count as usize * self.places() as usize;
        whole <= logs && whole <= holds
    }
}
