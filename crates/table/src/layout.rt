// Where the words of a node stand in a table: the one place that knows how many there are.
ghost use Rattle.std.specs.Prelude.{◌≡◌, ◌+◌, ◌≤◌, ◌<◌, length};
ghost use Rattle.std.proofs.lemmas.List.Edits.{sets};
ghost use Rattle.table.specs.Layout.{eight, words_at, put_words, words_for, room_in, max_children};
ghost use Rattle.table.specs.Node.{max_nodes};

// How many words a node has: kind, variable ("fact"), number of children, and the children. Public for the lengths of arrays alone.
pub const NODE_WORDS: usize = 11;

// How many children a node has at most.
pub const MAX_CHILDREN: usize = 8;

// The children of a node: how many, and their numbers. The other words are unused.
#[derive(Clone, Copy)]
pub struct Children {
    pub count: u32,
    pub nodes: [u32; MAX_CHILDREN],
}

// The words of a node.
#[derive(Clone, Copy)]
pub struct NodeWords {
    pub kind: u32,
    pub variable: u32,
    pub children: Children,
}

// How many words n nodes have.
pub fn words_for(n: u32) -> usize
    ensures { result ≡ words_for n }
{
    NODE_WORDS * (n as usize)
}

// How many nodes have room in so many words.
pub fn room_in(words: usize) -> usize
    ensures { result ≡ room_in words }
{
    words / NODE_WORDS
}

// The eight words from a place on.
fn eight_at(words: &[u32], at: usize) -> [u32; MAX_CHILDREN]
    requires { (at < words_for max_nodes) × (at + max_children ≤ length words.now) }
    ensures { result ≡ eight words.now at }
{
    [
        words[at],
        words[at + 1],
        words[at + 2],
        words[at + 3],
        words[at + 4],
        words[at + 5],
        words[at + 6],
        words[at + 7],
    ]
}

// The words of node i.
pub fn words_at(words: &[u32], i: usize) -> NodeWords
    requires { (i < max_nodes) × (words_for (i + 1) ≤ length words.now) }
    ensures { result ≡ words_at words.now i }
{
    let at = NODE_WORDS * i;
    let kind = words[at];
    let variable = words[at + 1];
    let count = words[at + 2];
    let nodes = eight_at(words, at + 3);
    NodeWords {
        kind,
        variable,
        children: Children { count, nodes },
    }
}

// Makes the eight words from a place on those of the array.
fn put_eight(words: &mut [u32], at: usize, nodes: [u32; MAX_CHILDREN])
    requires { at + max_children ≤ length words.old }
    ensures { words.new ≡ sets words.old at nodes }
{
    words[at..at + MAX_CHILDREN].copy_from_slice(&nodes);
}

// Makes the words of node i.
pub fn put_words(words: &mut [u32], i: usize, node: NodeWords)
    requires { (i < max_nodes) × (words_for (i + 1) ≤ length words.old) }
    ensures { words.new ≡ put_words words.old i node }
{
    let at = NODE_WORDS * i;
    let children = node.children;
    let nodes = children.nodes;
    words[at] = node.kind;
    words[at + 1] = node.variable;
    words[at + 2] = children.count;
    put_eight(words, at + 3, nodes);
}
