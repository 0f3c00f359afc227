ghost use Rattle.std.specs.Prelude.{◌≡◌};

/// The neighbours of a node in a thread, by their places in the slab.
#[derive(Clone, Copy, Debug)]
pub struct Links {
    pub previous: Option<usize>,
    pub next: Option<usize>,
}

/// The first and the last place of a thread.
#[derive(Clone, Copy, Debug)]
pub struct Ends {
    pub first: Option<usize>,
    pub last: Option<usize>,
}

/// A node that takes part in the thread `W`. A node may take part in several, by one implementation for each.
pub trait Threaded<W> {
    ghost use Rattle.linked_base.specs.declared.links.Links.{Links as TheLinks};

    /// The node's neighbours in the thread.
    ghost links: { Self → TheLinks };

    /// The node with other neighbours.
    ghost with_links: { Self → TheLinks → Self };

    fn links(&self) -> Links
        ensures { result ≡ links self.now };

    fn set_links(&mut self, to: Links)
        ensures { self.new ≡ with_links self.old to };

    /// The links are a part of the node like a field: what is written is read, and the last write stands.
    ghost links_back: { (n : Self) → with_links n (links n) ≡ n };

    ghost links_of_set: { (n : Self) (l : TheLinks) → links (with_links n l) ≡ l };

    ghost set_twice: { (n : Self) (l m : TheLinks) → with_links (with_links n l) m ≡ with_links n m };
}
