//! What is none of the grammar, and the canonical form of what is.
use crate::calls::{Case, ONE, first_wrong, writes};
use crate::structures::SWEEP;

/// Where a text of one node that is cut after each of its tokens is found to end too early.
const CUTS: [(usize, &[u8]); 26] = [
    (9, b"malformed at 1:10\n"),
    (13, b"malformed at 1:14\n"),
    (14, b"malformed at 1:15\n"),
    (19, b"malformed at 2:5\n"),
    (21, b"malformed at 2:7\n"),
    (22, b"malformed at 2:8\n"),
    (28, b"malformed at 3:6\n"),
    (30, b"malformed at 3:8\n"),
    (32, b"malformed at 3:10\n"),
    (36, b"malformed at 3:14\n"),
    (38, b"malformed at 3:16\n"),
    (42, b"malformed at 3:20\n"),
    (43, b"malformed at 3:21\n"),
    (45, b"malformed at 3:23\n"),
    (51, b"malformed at 4:6\n"),
    (57, b"malformed at 4:12\n"),
    (58, b"malformed at 4:13\n"),
    (65, b"malformed at 5:7\n"),
    (74, b"malformed at 5:16\n"),
    (75, b"malformed at 5:17\n"),
    (76, b"malformed at 5:18\n"),
    (77, b"malformed at 5:19\n"),
    (79, b"malformed at 5:21\n"),
    (86, b"malformed at 5:28\n"),
    (92, b"malformed at 5:34\n"),
    (93, b"malformed at 5:35\n"),
];

/// The front of a text, of so many bytes.
fn cut(text: &[u8], length: usize) -> &[u8] {
    &text[..length.min(text.len())]
}

#[test]
fn cut_texts_are_malformed_at_their_end(rt: HostRuntime) {
    for (length, output) in CUTS {
        let text = cut(ONE, length);
        assert!(rt; writes(&rt, rt.alloc(), &["verify"], text, output) == Ok(true));
        assert!(rt; writes(&rt, rt.alloc(), &["print"], text, output) == Ok(true));
    }
}

/// Texts that are none of the grammar.
const MALFORMED: [Case; 45] = [
    (b"", b"malformed at 1:1\n"),
    (
        b"structure one;\nroot a;\nstart a { key = MIN; }\nholds false;\nmethod contains(k) { return false; }\n;",
        b"malformed at 6:1\n",
    ),
    (
        b"structure one;\nroot a;\nstart a { key = 5; }\nholds false;\nmethod contains(k) { return false; }\n",
        b"malformed at 3:17\n",
    ),
    (b"structure one #", b"malformed at 1:15\n"),
    (b"structure #;\nroot $;", b"malformed at 1:11\n"),
    (b"structure one; /", b"malformed at 1:16\n"),
    (b"structure Xa;", b"malformed at 1:11\n"),
    (b"structure one;\nroot a; flag f;", b"malformed at 2:9\n"),
    (b"structure one;\nholds x.f &", b"malformed at 2:11\n"),
    (b"structure one;\nholds x.f & #", b"malformed at 2:11\n"),
    (b"structure one;\nholds x.f ==;", b"malformed at 2:13\n"),
    (
        b"structure one;\nholds x.f == x.g == x.h;",
        b"malformed at 2:18\n",
    ),
    (b"structure one;\nholds x.f in;", b"malformed at 2:13\n"),
    (b"structure one;\nholds !root.f;", b"malformed at 2:8\n"),
    (b"structure one;\nholds (x.f;", b"malformed at 2:11\n"),
    (b"structure one;\nholds x.f) ;", b"malformed at 2:10\n"),
    (
        b"structure one;\nholds true; holds false;",
        b"malformed at 2:13\n",
    ),
    (
        b"structure one;\nholds true; keep a : true; edge n : true;",
        b"malformed at 2:28\n",
    ),
    (
        b"structure one;\nholds true; freeze true; freeze true;",
        b"malformed at 2:26\n",
    ),
    (
        b"structure one;\nholds true; method m(k) { var ; }",
        b"malformed at 2:31\n",
    ),
    (
        b"structure one;\nholds true; method m(k) { p = q.key; }",
        b"malformed at 2:33\n",
    ),
    (
        b"structure one;\nholds true; method m(k) { atomic { write p.f = false; test p.f; } }",
        b"malformed at 2:55\n",
    ),
    (
        b"structure one;\nholds true; method m(k) { atomic { with p; with q; } }",
        b"malformed at 2:44\n",
    ),
    (
        b"structure one;\nholds true; method m(k) { if (p.f || q.f) { } }",
        b"malformed at 2:35\n",
    ),
    (
        b"structure one;\nholds true; method m(k) { while p.f { } }",
        b"malformed at 2:33\n",
    ),
    (
        b"structure one;\nholds true; method m(k) { loop return true; }",
        b"malformed at 2:32\n",
    ),
    (
        b"structure one;\nholds true; method m(k) { return null; }",
        b"malformed at 2:34\n",
    ),
    (
        b"structure one;\nholds true; method m(k) { root = p; }",
        b"malformed at 2:27\n",
    ),
    (
        b"structure one;\nholds true; method m(k, l) { }",
        b"malformed at 2:23\n",
    ),
    (
        b"structure one;\nholds true; method m as n o(k) { }",
        b"malformed at 2:27\n",
    ),
    (
        b"structure one;\nholds true; method m(k) { } }",
        b"malformed at 2:29\n",
    ),
    (
        b"structure one;\nholds true; method m(k) { else { } }",
        b"malformed at 2:27\n",
    ),
    (
        b"structure one;\nptr next asc;\nflag up;\nholds true;",
        b"malformed at 3:1\n",
    ),
    (b"structure one;\nptr next true;", b"malformed at 2:10\n"),
    (
        b"structure one;\nholds x.up == true;",
        b"malformed at 2:15\n",
    ),
    (b"structure one;\nholds x.root;", b"malformed at 2:9\n"),
    (b"structure one;\nholds x in root;", b"malformed at 2:12\n"),
    (b"structure one;\nholds MIN.up;", b"malformed at 2:10\n"),
    (
        b"structure one;\nholds x == j == x;",
        b"malformed at 2:14\n",
    ),
    (b"structure one;\nfreeze x.up;", b"malformed at 2:1\n"),
    (
        b"structure one;\nholds true; method m(k) { p = true; }",
        b"malformed at 2:31\n",
    ),
    (
        b"structure one;\nholds true; method m(k) { atomic { c = root; } }",
        b"malformed at 2:44\n",
    ),
    (
        b"structure one;\nholds true; method m(k) { var p; var q; }",
        b"malformed at 2:34\n",
    ),
    (
        b"structure one;\nholds true; method m(k) { while (p.up) { } else { } }",
        b"malformed at 2:44\n",
    ),
    (
        b"structure one;\nholds true; method m as key(k) { }",
        b"malformed at 2:25\n",
    ),
];

/// Conditions in 32 and in 33 pairs of parentheses, and a bracket too many where no bracket may stand.
const NESTED: [Case; 4] = [
    (
        b"structure one;\nroot a;\nstart a { key = MIN; }\nholds ((((((((((((((((((((((((((((((((false))))))))))))))))))))))))))))))));\nmethod contains(k) { return false; }\n",
        b"structure one\neffects 0\naccepted\n",
    ),
    (
        b"structure one;\nroot a;\nstart a { key = MIN; }\nholds (((((((((((((((((((((((((((((((((false)))))))))))))))))))))))))))))))));\nmethod contains(k) { return false; }\n",
        b"too large nesting 33 32\n",
    ),
    (
        b"structure one;\nroot a;\nstart a { key = MIN; }\nholds ((((((((((((((((((((((((((((((((false (",
        b"malformed at 4:45\n",
    ),
    (
        b"structure one;\nholds true;\nmethod m(k) {loop{loop{loop{loop{loop{loop{loop{loop{loop{loop{loop{loop{loop{loop{loop{loop{loop{loop{loop{loop{loop{loop{loop{loop{loop{loop{loop{loop{loop{loop{loop{if(p.f){",
        b"too large nesting 33 32\n",
    ),
];

#[test]
fn texts_of_no_grammar_tell_the_first_place_that_shows_it(rt: HostRuntime) {
    assert_eq!(rt;
        first_wrong(&rt, rt.alloc(), &["verify"], &MALFORMED),
        Ok(None)
    );
    assert_eq!(rt;
        first_wrong(&rt, rt.alloc(), &["print"], &MALFORMED),
        Ok(None)
    );
    assert_eq!(rt;
        first_wrong(&rt, rt.alloc(), &["verify"], &NESTED),
        Ok(None)
    );
}

/// Texts and their canonical forms.
const PRINTS: [Case; 4] = [
    (
        SWEEP,
        b"structure michael;\nflag marked;\nptr next asc;\nroot head;\nstart head {\n  key = MIN;\n  next = tail;\n}\nstart tail {\n  key = MAX;\n}\nedge next : x.key < j;\nholds x.key == j && !x.marked;\nkeep linked : x.key == MAX || x.next != null;\nkeep ends : !x.marked || MIN < x.key && x.key < MAX;\nkeep inset : x.marked || j < x.key || j in x;\nmethod insert(k) {\n  var p, c, s, n;\n  n = new;\n  p = root;\n  c = p.next;\n  loop {\n    if (c.marked) {\n      s = c.next;\n      atomic {\n        test p.next == c;\n        test !p.marked;\n        write p.next = s;\n      } else {\n        p = root;\n        s = p.next;\n      }\n      c = s;\n    } else {\n      if (c.key < k) {\n        p = c;\n        c = p.next;\n      } else {\n        if (c.key == k) {\n          return false;\n        } else {\n          atomic {\n            write n.next = c;\n          }\n          atomic {\n            test p.next == c;\n            test !p.marked;\n            write p.next = n;\n          } else {\n            p = root;\n            c = p.next;\n            continue;\n          }\n          return true;\n        }\n      }\n    }\n  }\n}\nmethod delete(k) {\n  var p, c, s;\n  p = root;\n  c = p.next;\n  loop {\n    if (c.marked) {\n      s = c.next;\n      atomic {\n        test p.next == c;\n        test !p.marked;\n        write p.next = s;\n      } else {\n        p = root;\n        s = p.next;\n      }\n      c = s;\n    } else {\n      if (c.key < k) {\n        p = c;\n        c = p.next;\n      } else {\n        if (c.key == k) {\n          atomic {\n            test !c.marked;\n            write c.marked = true;\n          } else {\n            continue;\n          }\n          s = c.next;\n          atomic {\n            test p.next == c;\n            test !p.marked;\n            write p.next = s;\n          }\n          return true;\n        } else {\n          return false;\n        }\n      }\n    }\n  }\n}\nmethod contains(k) {\n  var p, c;\n  p = root;\n  c = p.next;\n  while (c.key < k) {\n    p = c;\n    c = p.next;\n  }\n  if (c.key == k) {\n    if (c.marked) {\n      return false;\n    } else {\n      return true;\n    }\n  } else {\n    return false;\n  }\n}\nmethod sweep as upkeep(k) {\n  var p, c, s;\n  p = root;\n  c = p.next;\n  loop {\n    if (c.marked) {\n      s = c.next;\n      atomic {\n        test p.next == c;\n        test !p.marked;\n        write p.next = s;\n      }\n      return true;\n    }\n    if (k <= c.key) {\n      return true;\n    }\n    p = c;\n    c = p.next;\n  }\n}\n",
    ),
    (
        ONE,
        b"structure one;\nroot a;\nstart a {\n  key = MIN;\n}\nholds false;\nmethod contains(k) {\n  return false;\n}\n",
    ),
    (
        b"structure  a ; // remark\nflag f;ptr n asc;lock;root r;start r{key=MAX;f=true;n=null;}edge n:(x.key<j)&&!x.f;holds x.key==j||x.f;keep i:j in x;freeze x.f;method m as insert(k){var p,q;p=root;if(p.f&&!p.f){}else{lock p;}}",
        b"structure a;\nflag f;\nptr n asc;\nlock;\nroot r;\nstart r {\n  key = MAX;\n  f = true;\n  n = null;\n}\nedge n : (x.key < j) && !x.f;\nholds x.key == j || x.f;\nkeep i : j in x;\nfreeze x.f;\nmethod m as insert(k) {\n  var p, q;\n  p = root;\n  if (p.f && !p.f) {\n  } else {\n    lock p;\n  }\n}\n",
    ),
    (
        b"structure b;holds true;method m(k){atomic{with p,root;test p.n==q;p=q.n;write q.n=null;}else{loop{break;continue;}}while(p.key<=k){p=new;q=null;unlock root;return true;}}",
        b"structure b;\nholds true;\nmethod m(k) {\n  atomic {\n    with p, root;\n    test p.n == q;\n    p = q.n;\n    write q.n = null;\n  } else {\n    loop {\n      break;\n      continue;\n    }\n  }\n  while (p.key <= k) {\n    p = new;\n    q = null;\n    unlock root;\n    return true;\n  }\n}\n",
    ),
];

#[test]
fn prints_are_canonical_and_print_as_themselves(rt: HostRuntime) {
    for (text, output) in PRINTS {
        assert!(rt; writes(&rt, rt.alloc(), &["print"], text, output) == Ok(true));
        assert!(rt; writes(&rt, rt.alloc(), &["print"], output, output) == Ok(true));
    }
}
