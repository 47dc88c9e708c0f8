// The ids of a call, as one list.
ghost use Rattle.std.specs.Prelude.{◌≡◌, ◌<◌};
ghost use Rattle.naming.specs.Calls.{ids, id_count};

// In argument order: the call's first id, and then those of its list.
#[derive(Clone, Copy)]
pub struct Called<'a> {
    pub id: &'a [u8; 32],
    pub others: &'a [[u8; 32]],
}

impl<'a> Called<'a> {
    // How many ids there are; the first is always there.
    pub fn count(&self) -> usize
        ensures { result ≡ id_count self.now }
    {
        1 + self.others.len()
    }

    // The id at place i.
    pub fn get(&self, i: usize) -> &'a [u8; 32]
        requires { i < id_count self.now }
        ensures { result.now ≡ ids self.now i }
    {
        if i == 0 { self.id } else { &self.others[i - 1] }
    }
}
