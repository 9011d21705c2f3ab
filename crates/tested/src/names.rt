//! Tables of the numbers that names have in classes.

use name_tables::NameTable;
use std::alloc::{AllocError, Global};
use std::test::Fail;
use type_tree::{TypeFlags, TypeId, TypeTree};

#[test]
fn a_name_has_a_number_in_each_class_that_has_it(rt: HostRuntime) -> Result<(), Fail> {
    let mut table = NameTable::new(rt.alloc());
    table.add(TypeId::new(2), "label", 7)?;
    table.add(TypeId::new(5), "label", 0)?;
    table.add(TypeId::new(5), "visible", 1)?;
    let label = table
        .find("label")
        .expect(&rt, "a name that two classes have");
    let visible = table
        .find("visible")
        .expect(&rt, "a name that one class has");
    assert_eq!(rt; table.number(TypeId::new(2), label), Some(7));
    assert_eq!(rt; table.number(TypeId::new(5), label), Some(0));
    assert_eq!(rt; table.number(TypeId::new(3), label), None);
    assert_eq!(rt; table.number(TypeId::new(9), label), None);
    assert_eq!(rt; table.number(TypeId::new(2), visible), None);
    assert_eq!(rt; table.number(TypeId::new(5), visible), Some(1));
    assert_eq!(rt; table.name(visible), Some("visible"));
    Ok(())
}

#[test]
fn the_first_number_of_a_class_stays(rt: HostRuntime) -> Result<(), Fail> {
    let mut table = NameTable::new(rt.alloc());
    table.add(TypeId::new(1), "label", 3)?;
    table.add(TypeId::new(1), "label", 4)?;
    let label = table.find("label").expect(&rt, "a name that a class has");
    assert_eq!(rt; table.number(TypeId::new(1), label), Some(3));
    Ok(())
}

#[test]
fn a_name_that_no_class_has_is_nowhere(rt: HostRuntime) -> Result<(), Fail> {
    let mut table = NameTable::new(rt.alloc());
    assert_eq!(rt; table.find("label"), None);
    assert_eq!(rt; table.name(0), None);
    table.add(TypeId::new(0), "label", 0)?;
    assert_eq!(rt; table.find("labels"), None);
    assert_eq!(rt; table.name(1), None);
    Ok(())
}

#[test]
fn a_name_keeps_the_place_that_it_got(rt: HostRuntime) -> Result<(), Fail> {
    let mut table = NameTable::new(rt.alloc());
    assert_eq!(rt; table.intern("label")?, 0);
    assert_eq!(rt; table.intern("visible")?, 1);
    assert_eq!(rt; table.intern("label")?, 0);
    assert_eq!(rt; table.find("visible"), Some(1));
    assert_eq!(rt; table.name(1), Some("visible"));
    assert_eq!(rt; table.number(TypeId::new(0), 1), None);
    Ok(())
}

// Creates a tree in which a widget is 2, a button under it 3, a toggle under that 4, a label under the widget 5, and a timer that is no
// widget 6.
fn widgets(alloc: Global) -> Result<TypeTree, AllocError> {
    let mut tree = TypeTree::new(alloc)?;
    for (name, parent) in [
        ("Widget", "GObject"),
        ("Button", "Widget"),
        ("Toggle", "Button"),
        ("Label", "Widget"),
        ("Timer", "GObject"),
    ] {
        if tree.add_class(name, parent, TypeFlags::NONE, &[]).is_err() {
            return Err(AllocError);
        }
    }
    Ok(tree)
}

#[test]
fn a_class_without_a_number_gets_that_of_its_nearest_ancestor(rt: HostRuntime) -> Result<(), Fail> {
    let tree = widgets(rt.alloc())?;
    let mut table = NameTable::new(rt.alloc());
    table.add(TypeId::new(2), "visible", 3)?;
    table.add(TypeId::new(5), "visible", 8)?;
    table.add(TypeId::new(3), "text", 1)?;
    table.inherit(&tree)?;
    for (name, class, number) in [
        ("visible", 0, None),
        ("visible", 2, Some(3)),
        ("visible", 3, Some(3)),
        ("visible", 4, Some(3)),
        ("visible", 5, Some(8)),
        ("visible", 6, None),
        ("visible", 7, None),
        ("text", 2, None),
        ("text", 3, Some(1)),
        ("text", 4, Some(1)),
        ("text", 5, None),
    ] {
        let place = table.find(name).expect(&rt, "a name that some class has");
        assert_eq!(rt;
            table.number(TypeId::new(class), place),
            number,
            "{name} of {class}"
        );
    }
    Ok(())
}
