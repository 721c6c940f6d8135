//! Keys, menus and functions as the cases of keys name them.

use case_files::CaseFault;
use keymap::{Function, Key, Menu, function_named};
use mail_base::Bytes;
use std::alloc::Global;

/// Keys as text: a character stands for itself, any other key for its name in brackets.
pub fn shown_keys(alloc: Global, keys: &[Key]) -> Result<Bytes, CaseFault> {
    let mut shown = Bytes::new(alloc);
    for key in keys {
        append_key(&mut shown, *key)?;
    }
    Ok(shown)
}

pub fn append_key(shown: &mut Bytes, key: Key) -> Result<(), CaseFault> {
    match key {
        Key::Char(c) => {
            let mut buffer = [0; 4];
            shown.append(c.encode_utf8(&mut buffer).as_bytes())?;
        }
        Key::Call(function) => {
            shown.append(b"<")?;
            shown.append(function.name())?;
            shown.append(b">")?;
        }
        key => shown.append(key_name(key))?,
    }
    Ok(())
}

fn key_name(key: Key) -> &'static [u8] {
    match key {
        Key::Up => b"<Up>",
        Key::Down => b"<Down>",
        Key::Left => b"<Left>",
        Key::Right => b"<Right>",
        Key::Home => b"<Home>",
        Key::End => b"<End>",
        Key::PageUp => b"<PageUp>",
        Key::PageDown => b"<PageDown>",
        Key::Insert => b"<Insert>",
        Key::Delete => b"<Delete>",
        Key::F1 => b"<F1>",
        Key::F2 => b"<F2>",
        Key::F3 => b"<F3>",
        Key::F4 => b"<F4>",
        Key::Char(_) | Key::Call(_) => b"",
    }
}

pub fn menu_named(name: &[u8]) -> Result<Menu, CaseFault> {
    match name {
        b"index" => Ok(Menu::Index),
        b"pager" => Ok(Menu::Pager),
        b"attach" => Ok(Menu::Attach),
        b"generic" => Ok(Menu::Generic),
        _ => Err(CaseFault::BadInput),
    }
}

pub fn need_function(name: &[u8]) -> Result<Function, CaseFault> {
    function_named(name).ok_or(CaseFault::BadInput)
}
