// The limits of the settings, by the numbers of their refusals.
use settings::{AliasValue, Refusal, Setting, Settings};
use std::test::Fail;
use texts::same_bytes;

// The number of a refusal, or 0 for what was taken.
fn number(taken: Result<(), Refusal>) -> u8 {
    match taken {
        Ok(()) => 0,
        Err(refusal) => refusal.number(),
    }
}

// Adds a text to a table.
fn add(settings: &mut Settings, kind: Setting, text: &[u8]) -> u8 {
    number(match kind {
        Setting::Alias => settings.add_alias(text),
        Setting::Value => settings.add_value(text),
        Setting::Ignore => settings.add_ignore(),
        Setting::Extension => settings.add_extension(text),
        Setting::MainFile => settings.add_main_file(text),
        Setting::Restriction => settings.add_restriction(text),
    })
}

// The number for a text in tables that have one label and nothing else.
fn number_alone(kind: Setting, text: &[u8]) -> Result<u8, Refusal> {
    let mut settings = Settings::new();
    settings.add_alias(b"ui")?;
    Ok(add(&mut settings, kind, text))
}

// How many such texts are taken before the table is full; 99 if another refusal comes.
fn room(kind: Setting, text: &[u8]) -> Result<u8, Refusal> {
    let mut settings = Settings::new();
    if kind == Setting::Value {
        settings.add_alias(b"ui")?;
    }
    for taken in 0..20u8 {
        match add(&mut settings, kind, text) {
            0 => {}
            12 => return Ok(taken),
            _ => return Ok(99),
        }
    }
    Ok(99)
}

// Tables with one or two texts each.
fn filled() -> Result<Settings, Refusal> {
    let mut settings = Settings::new();
    settings.add_alias(b"ui")?;
    settings.add_value(b"/v")?;
    settings.add_ignore()?;
    settings.add_extension(b".js")?;
    settings.add_main_file(b"index")?;
    settings.add_restriction(b"/lib/x")?;
    settings.set_flag(2, 1)?;
    Ok(settings)
}

// Whether a value is this path, or ignores.
fn is_value(value: &AliasValue, path: Option<&[u8]>) -> bool {
    match value {
        AliasValue::Ignore => path.is_none(),
        AliasValue::Path(text) => match path {
            Some(path) => same_bytes(text.as_bytes(), path),
            None => false,
        },
    }
}

// Whether the labels are those of `filled`.
fn has_one_label(settings: &Settings) -> bool {
    let aliases = settings.aliases();
    if aliases.len() != 1 {
        return false;
    }
    let values = aliases[0].values();
    same_bytes(aliases[0].label(), b"ui")
        && values.len() == 2
        && is_value(&values[0], Some(b"/v"))
        && is_value(&values[1], None)
}

// Whether the texts that are no labels are those of `filled`.
fn has_one_of_each(settings: &Settings) -> bool {
    let extensions = settings.extensions();
    let main_files = settings.main_files();
    let paths = settings.restrictions();
    if extensions.len() != 1 || main_files.len() != 1 || paths.len() != 1 {
        return false;
    }
    same_bytes(extensions[0].as_bytes(), b".js")
        && same_bytes(main_files[0].as_bytes(), b"index")
        && same_bytes(paths[0].as_bytes(), b"/lib/x")
}

// Whether all tables and flags are those of `filled`.
fn is_as_filled(settings: &Settings) -> bool {
    has_one_of_each(settings)
        && has_one_label(settings)
        && !settings.fully_specified()
        && settings.resolve_to_context()
        && !settings.enforces_extension()
}

#[test]
fn texts_have_their_lengths_bytes_and_forms(rt: HostRuntime) -> Result<(), Fail> {
    use Setting::{Alias, Extension, MainFile, Restriction, Value};
    let long = [b'a'; 97];
    let mut path = [b'a'; 256];
    path[0] = b'/';
    let texts = [
        (Alias, b"".as_slice(), 10),
        (Alias, b"a", 0),
        (Alias, &long[0..32], 0),
        (Alias, &long[0..33], 10),
        (Alias, b"aaaaaaaaaaaaaaaaaaaaaaaaaaaaaa*$", 0),
        (Alias, b"aaaaaaaaaaaaaaaaaaaaaaaaaaaaaaa*$", 10),
        (Value, b"", 11),
        (Value, b"a", 0),
        (Value, &long[0..96], 0),
        (Value, &long, 11),
        (Extension, b"", 0),
        (Extension, b".", 0),
        (Extension, b".aaaaaaaaaaa", 0),
        (Extension, b".aaaaaaaaaaaa", 11),
        (Extension, b"js", 13),
        (Extension, b"./", 13),
        (MainFile, b"", 11),
        (MainFile, b"a", 0),
        (MainFile, &long[0..16], 0),
        (MainFile, &long[0..17], 11),
        (MainFile, b"a/b", 13),
        (Restriction, b"", 13),
        (Restriction, b"/", 0),
        (Restriction, b"lib", 13),
        (Restriction, b"/lib/", 13),
        (Restriction, b"/lib/../a", 13),
        (Restriction, &path[0..255], 0),
        (Restriction, &path, 11),
    ];
    let mut i = 0u8;
    for (kind, text, expected) in texts {
        assert!(rt; number_alone(kind, text)? == expected, "text {i}");
        i = i.wrapping_add(1);
    }
    for (byte, expected) in [(31, 11), (32, 0), (126, 0), (127, 11)] {
        assert!(rt;
            number_alone(Alias, &[byte])? == expected
                && number_alone(Value, &[byte])? == expected
                && number_alone(Extension, &[b'.', byte])? == expected
                && number_alone(MainFile, &[byte])? == expected
                && number_alone(Restriction, &[b'/', byte])? == expected,
            "byte {byte}"
        );
    }
    Ok(())
}

#[test]
fn tables_have_their_room(rt: HostRuntime) -> Result<(), Fail> {
    assert!(rt; room(Setting::Alias, b"ui")? == 16);
    assert!(rt; room(Setting::Value, b"/v")? == 4);
    assert!(rt; room(Setting::Extension, b".js")? == 8);
    assert!(rt; room(Setting::MainFile, b"index")? == 4);
    assert!(rt; room(Setting::Restriction, b"/lib")? == 4);
    let mut settings = Settings::new();
    assert!(rt; number(settings.add_value(b"")) == 14 && number(settings.add_ignore()) == 14);
    settings.add_alias(b"ui")?;
    for _ in 0..4 {
        settings.add_ignore()?;
    }
    assert!(rt; number(settings.add_ignore()) == 12 && number(settings.add_value(b"/v")) == 12);
    assert!(rt; number(settings.add_value(b"")) == 11);
    settings.add_alias(b"b")?;
    assert!(rt; number(settings.add_value(b"/v")) == 0);
    Ok(())
}

#[test]
fn lines_are_taken_or_refused(rt: HostRuntime) {
    let lines = [
        (b" 23   2   0 /v".as_slice(), 14),
        (b" 24   0   0 ", 14),
        (b" 21   0   0 ", 10),
        (b" 21   2   0 ui", 0),
        (b" 21   2   1 uib", 11),
        (b" 23   2   0 /v", 0),
        (b" 24   0   0 ", 0),
        (b" 24   1   0 a", 11),
        (b" 25   3   0 .js", 0),
        (b" 26   5   0 index", 0),
        (b" 30   4   0 /lib", 0),
        (b" 30   4   0 lib/", 13),
        (b" 31   1   0 ", 0),
        (b" 31   1   1 ", 0),
        (b" 31   1   2 ", 13),
        (b" 31   2   1 ", 0),
        (b" 31   3   2 ", 0),
        (b" 31   3   3 ", 13),
        (b" 31   0   0 ", 13),
        (b" 31   4   0 ", 13),
        (b" 31   1   1 11", 15),
        (b" 22   0   0 ", 15),
        (b" 21   2   0 u", 15),
        (b" 21   2   0 uib", 15),
        (b"21    2   0 ui", 15),
        (b" 21 ", 15),
        (b"", 15),
    ];
    let mut settings = Settings::new();
    let mut i = 0u8;
    for (line, expected) in lines {
        assert!(rt; number(settings.load(line)) == expected, "line {i}");
        i = i.wrapping_add(1);
    }
    assert!(rt;
        settings.aliases().len() == 1
            && settings.extensions().len() == 1
            && settings.main_files().len() == 1
            && settings.restrictions().len() == 1
            && settings.fully_specified()
            && settings.resolve_to_context()
    );
}

#[test]
fn what_is_refused_leaves_the_tables(rt: HostRuntime) -> Result<(), Fail> {
    let mut settings = filled()?;
    assert!(rt; is_as_filled(&settings));
    for (kind, text, expected) in [
        (Setting::Alias, b"".as_slice(), 10),
        (Setting::Value, b"", 11),
        (Setting::Extension, b"js", 13),
        (Setting::MainFile, b"a/b", 13),
        (Setting::Restriction, b"/lib/", 13),
    ] {
        assert!(rt; add(&mut settings, kind, text) == expected && is_as_filled(&settings));
    }
    for (flag, setting) in [(0, 0), (1, 2), (2, 2), (3, 3), (4, 0)] {
        assert!(rt; number(settings.set_flag(flag, setting)) == 13 && is_as_filled(&settings));
    }
    for line in [
        b" 22   0   0 ".as_slice(),
        b" 31   2   0 00",
        b" 21   2   1 uib",
        b"",
    ] {
        assert!(rt; number(settings.load(line)) > 0 && is_as_filled(&settings));
    }
    Ok(())
}

#[test]
fn an_empty_extension_enforces_extensions(rt: HostRuntime) -> Result<(), Fail> {
    let mut settings = filled()?;
    settings.add_extension(b"")?;
    assert!(rt; settings.enforces_extension());
    for (setting, enforced) in [(0, false), (1, true), (2, true)] {
        settings.set_flag(3, setting)?;
        assert!(rt; settings.enforces_extension() == enforced);
    }
    Ok(())
}
