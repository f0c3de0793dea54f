// The pairs of fibres of the method.
ghost use Rattle.std.specs.Prelude.{◌+◌, ◌≤◌, length};
ghost use Rattle.strands.specs.inner.Layers.{HasLayer, HasParts, layer_in, layers_in};
ghost use Rattle.strands.specs.inner.Pairs.{LastsPut, PairsPut};

use crate::needs;

// How many, and the last link of each, in the order of their layers. Tables of this size are never copied or compared.
#[derive(Drop)]
pub struct Pairs {
    pub count: usize,
    pub lasts: [u16; 2048],
    ghost room: { count ≤ 2048 },
}

impl Pairs {
    // The pairs of layer h come behind those that are there.
    fn add_layer(&mut self, work: &[u8], n: usize, top: usize, h: usize)
        requires has_layer { HasLayer n top h work.now }
        requires has_room { self.old.count + length (layer_in n top h work.now) ≤ 2048 }
        ensures { LastsPut self.old.count (layer_in n top h work.now) self.old.lasts self.new.lasts self.new.count }
    {
        let t = (top + 1 - h) as u16;
        let mut at = needs::next_run(work, n, 1, t);
        while let Some(l) = at {
            let r = needs::end_run(work, n, l, t);
            self.lasts[self.count] = (r - 1) as u16;
            self.count += 1;
            at = needs::next_run(work, n, r, t);
        }
    }
}

// The pairs of all layers. Before each layer, their number goes into a spare cell of the work area.
pub fn of_layers(work: &mut [u8], n: usize, m: usize, top: usize) -> Pairs
    requires has_parts { HasParts n m top work.old }
    requires has_room { length (layers_in n top work.old) ≤ 2048 }
    ensures { PairsPut n m top work.old work.new result.lasts result.count }
{
    let mut pairs = Pairs {
        count: 0,
        lasts: [0; 2048],
    };
    for h in 0..top {
        records::cells::put(work, 2 * n + m + h, pairs.count as u16);
        pairs.add_layer(work, n, top, h + 1);
    }
    pairs
}
