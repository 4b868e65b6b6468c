// A list in a fixed array with a count beside it: its elements stand at the front, as many as the count says, and a slot that no element
// uses is blank. The records' lists are structs of their own, since C can be given no struct with type arguments; what is done to any of
// them is written here, once, over its array and its count.
#![tactic(auto)]

ghost use Rattle.std.specs.Prelude.{◌≡◌, ◌≤◌, ◌<◌, ◌++◌, [], ◌∷◌, length, take};
ghost use Rattle.lists.specs.Places.{without};
ghost use Rattle.lists.specs.Search.{placed};
ghost use Rattle.slots.specs.Lists.{over};

// What a slot holds that no element uses.
pub trait Blank: Copy {
    ghost blank: { Self };

    fn blank() -> Self
        ensures { result ≡ blank };
}

// One element more, last.
pub fn push<T: Blank, const N: usize>(items: &mut [T; N], count: &mut usize, x: T)
    requires { count.old < N }
    ensures items { items.new ≡ over T.blank count.old (take count.old items.old ++ (x ∷ [])) items.old }
    ensures count { count.new ≡ length (take count.old items.old ++ (x ∷ [])) }
{
    items[*count] = x;
    *count += 1;
}

// Takes element i out: the later ones move up, and the freed slot is blank.
pub fn remove<T: Blank, const N: usize>(items: &mut [T; N], count: &mut usize, i: usize)
    requires { (count.old ≤ N) × (i < count.old) }
    ensures items { items.new ≡ over T.blank count.old (without i (take count.old items.old)) items.old }
    ensures count { count.new ≡ length (without i (take count.old items.old)) }
{
    items.copy_within(i + 1..*count, i);
    *count -= 1;
    items[*count] = T::blank();
}

// Puts x in the place of element i, or last where i is the count.
pub fn place<T: Blank, const N: usize>(items: &mut [T; N], count: &mut usize, i: usize, x: T)
    requires { (count.old ≤ N) × (i ≤ count.old) × (i < N) }
    ensures items { items.new ≡ over T.blank count.old (placed i x (take count.old items.old)) items.old }
    ensures count { count.new ≡ length (placed i x (take count.old items.old)) }
{
    items[i] = x;
    if i == *count {
        *count += 1;
    }
}

// Takes all elements out: each slot that was used is blank.
pub fn clear<T: Blank, const N: usize>(items: &mut [T; N], count: &mut usize)
    requires { count.old ≤ N }
    ensures items { items.new ≡ over T.blank count.old [] items.old }
    ensures count { count.new ≡ 0 }
{
    for slot in &mut items[..*count] {
        *slot = T::blank();
    }
    *count = 0;
}
