use crate::rows::rows;
use c_grammar::tree;
use c_lexer::tokens;
use c_printer::print;
use c_rawtree::Tree;
use std::alloc::{AllocError, Global};
use std::process::Abort;
use std::test::Fail;

fn tree_of(rt: &impl Abort, alloc: Global, text: &[u8]) -> Tree {
    let tokens = tokens(alloc, text).expect(rt, "the text has tokens");
    tree(alloc, text, &tokens).expect(rt, "the text has a tree")
}

/// A tree as its nodes are named, without their places.
fn shape(alloc: Global, tree: &Tree) -> Result<String, AllocError> {
    let shown = format!(in alloc; "{tree:?}")?;
    let mut shape = String::new(alloc);
    let mut rest = shown.as_str();
    for _ in 0..shown.len() {
        let Some((before, behind)) = rest.split_once("Place {") else {
            break;
        };
        shape.push_str(before)?;
        rest = match behind.split_once('}') {
            Some((_, behind)) => behind,
            None => behind,
        };
    }
    shape.push_str(rest)?;
    Ok(shape)
}

/// Shows that the tree of a text, printed and read again, is the same tree.
fn show_printed(rt: &impl Abort, alloc: Global, text: &str) -> Result<(), Fail> {
    let first = tree_of(rt, alloc, text.as_bytes());
    let printed = print(alloc, &first)?;
    let second = tree_of(rt, alloc, &printed);
    let wanted = shape(alloc, &first)?;
    assert_eq!(rt; shape(alloc, &second)?.as_str(), wanted.as_str(), "{text}");
    Ok(())
}

#[test]
fn a_printed_tree_is_read_as_the_same_tree(rt: HostRuntime) -> Result<(), Fail> {
    let alloc = rt.alloc();
    for row in rows().split('\n') {
        if let Some((text, refusal)) = row.split_once(" => ")
            && refusal.starts_with("U0")
        {
            show_printed(&rt, alloc, text)?;
        }
    }
    Ok(())
}

#[test]
fn a_printed_tree_of_a_whole_text_is_read_as_the_same_tree(rt: HostRuntime) -> Result<(), Fail> {
    let alloc = rt.alloc();
    for text in [
        "",
        "#include <threads.h>\n#include <stdint.h>\n",
        "static mtx_t mtx_lock;\n",
        "static mtx_t a, b;\nstatic mtx_t a;\n",
        "/* $ */ int main(void) // 09\n# 12 \"x\"\n{ return\x0c\r\n0; }",
        "static mtx_t m;\nint main(void)\n{\n    (void)mtx_init(&m, mtx_recursive);\n    (void)mtx_lock(&m);\n    (void)mtx_unlock(&m);\n    return 00;\n}\n",
    ] {
        show_printed(&rt, alloc, text)?;
    }
    Ok(())
}

#[test]
fn a_tree_keeps_what_its_text_says(rt: HostRuntime) -> Result<(), Fail> {
    let alloc = rt.alloc();
    for (text, printed) in [
        ("int a=1,*b[2];", "int a = 1 , * b [ 2 ] ; "),
        (
            "typedef struct s { int a, *b; } t; t c = { 1, { 2 } };",
            "typedef struct s { int a , * b ; } t ; t c = { 1 , { 2 , } , } ; ",
        ),
        (
            "enum e { A = 1, B } ; static enum e *const volatile f(int a[], char, mtx_t *m);",
            "enum e { A = 1 , B , } ; static enum e * const volatile f ( int a [ ] , char , mtx_t * m ) ; ",
        ),
        (
            "int g(void) { return (a - b) - (c - d) * -(e) / (f ? g : h); }",
            "int g ( void ) { return ( a - b ) - ( c - d ) * - e / ( f ? g : h ) ; } ",
        ),
        (
            "int g(void) { return !(a && b || c) == d << 1 & e ^ f | (long *)g[1].h->i(j, 2); }",
            "int g ( void ) { return ! ( a && b || c ) == d << 1 & e ^ f | ( long * ) g [ 1 ] . h -> i ( j , 2 ) ; } ",
        ),
        (
            "int g(void) { return sizeof((a)) + sizeof(int) + ((b))[0] + (*c)(d); }",
            "int g ( void ) { return sizeof ( a ) + sizeof ( int ) + b [ 0 ] + ( * c ) ( d ) ; } ",
        ),
        (
            "int g(void) { (*p)++; *p--; ++(a); b <<= (c); ; continue; { } }",
            "int g ( void ) { ( * p ) ++ ; * p -- ; ++ a ; b <<= c ; ; continue ; { } } ",
        ),
        (
            "int g(void) { for (int i = 0; i < 2; i++) { } for (;;) { break; } while (a) { } do { } while (b); }",
            "int g ( void ) { for ( int i = 0 ; i < 2 ; i ++ ) { } for ( ; ; ) { break ; } while ( a ) { } do { } while ( b ) ; } ",
        ),
        (
            "int g(void) { if (a) { } else if (b) { return; } else { int c; } }",
            "int g ( void ) { if ( a ) { } else if ( b ) { return ; } else { int c ; } } ",
        ),
        (
            "int g(void) { switch (a) { case 1: case 2: b = 3; break; case 'c': return 4; default: break; } }",
            "int g ( void ) { switch ( a ) { case 1 : case 2 : b = 3 ; break ; case 'c' : return 4 ; default : break ; } } ",
        ),
    ] {
        let tree = tree_of(&rt, alloc, text.as_bytes());
        assert_eq!(rt;
            print(alloc, &tree)?.as_slice(),
            printed.as_bytes(),
            "{text}"
        );
        show_printed(&rt, alloc, text)?;
    }
    Ok(())
}
