// The characters, numbers and lists of a script.

// A number, and the place past it and past a comma after it.
#[derive(Clone, Copy, PartialEq, Eq)]
pub struct Number {
    pub value: usize,
    pub next: usize,
}

// A list of names, and the place past it: how many, the order of their numbers (0 up, 1 down, 2 in strides of 1013), the
// place `to` where the name of the place `from` stands again, and how many `x` stand before and after the letters.
#[derive(Clone, Copy, PartialEq, Eq)]
pub struct List {
    pub count: usize,
    pub order: usize,
    pub from: usize,
    pub to: usize,
    pub before: usize,
    pub after: usize,
    pub next: usize,
}

// A sum that wraps for no place that the input has room for.
pub(crate) fn add(a: usize, b: usize) -> usize {
    a.wrapping_add(b)
}

// The character at `i`, a space past the end.
pub(crate) fn character(t: &[u8], i: usize) -> u8 {
    t.get(i).copied().unwrap_or(b' ')
}

fn past_comma(t: &[u8], i: usize) -> usize {
    if character(t, i) == b',' {
        add(i, 1)
    } else {
        i
    }
}

// The number of up to five digits at `from`, 0 where there is none.
pub(crate) fn read_number(t: &[u8], from: usize) -> Number {
    let mut value = 0;
    let mut i = from;
    for _ in 0..5 {
        let c @ b'0'..=b'9' = character(t, i) else {
            break;
        };
        value = value % 10000 * 10 + usize::from(c - b'0');
        i = add(i, 1);
    }
    Number {
        value,
        next: past_comma(t, i),
    }
}

// The list whose numbers stand at `i`, 0 those that are left out.
pub(crate) fn read_list(t: &[u8], i: usize) -> List {
    let count = read_number(t, i);
    let order = read_number(t, count.next);
    let from = read_number(t, order.next);
    let to = read_number(t, from.next);
    let before = read_number(t, to.next);
    let after = read_number(t, before.next);
    List {
        count: count.value,
        order: order.value,
        from: from.value,
        to: to.value,
        before: before.value,
        after: after.value,
        next: after.next,
    }
}

// The number of the name at place `q` of a list, below its count.
pub(crate) fn name_number(l: List, q: usize) -> usize {
    let k = if q == l.to { l.from } else { q };
    let n = l.count;
    if n <= k {
        return 0;
    }
    match l.order {
        0 => k,
        1 => n - 1 - k,
        _ => k % 100000 * 1013 % n,
    }
}
