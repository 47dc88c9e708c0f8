// The seven parts that a caller lends, as one value: to read, or to write too.
//
// Each part has a fixed length, and each of its cells a meaning (docs/STORE.md). A part of another length is no misuse: the calls refuse it.
// So neither type has an invariant, and what a call needs of its parts stands in its `requires`. Each call that changes parts says in its
// clause `same` that they still hold the slices that were lent: without it a caller would not know what its slices hold. Two types, since
// one type cannot stand for `&mut` and for `&`.
ghost use Rattle.std.specs.Prelude.{◌≡◌};
ghost use Rattle.store.specs.Parts.{store_in, store_seen};

#[derive(Drop)]
pub struct Parts<'a> {
    // How far each table is in use, and the mark.
    pub head: &'a mut [u32],
    // The ids and the nullifiers: of each the first four bytes as one number, and the other 28.
    pub keys: &'a mut [u32],
    pub rests: &'a mut [u8],
    // The columns of cells that hold names, counts and depths.
    pub nodes: &'a mut [u16],
    // The columns of cells that hold places and curvatures.
    pub links: &'a mut [u32],
    pub nonces: &'a mut [u64],
    // The set of tips, as words of bits.
    pub tips: &'a mut [u64],
}

// The same parts for calls that read alone, which take slices that are shared.
#[derive(Clone, Copy)]
pub struct View<'a> {
    pub head: &'a [u32],
    pub keys: &'a [u32],
    pub rests: &'a [u8],
    pub nodes: &'a [u16],
    pub links: &'a [u32],
    pub nonces: &'a [u64],
    pub tips: &'a [u64],
}

impl Parts<'_> {
    pub fn view(&self) -> View<'_>
        ensures { store_seen result ≡ store_in self.now }
    {
        View {
            head: self.head,
            keys: self.keys,
            rests: self.rests,
            nodes: self.nodes,
            links: self.links,
            nonces: self.nonces,
            tips: self.tips,
        }
    }
}
