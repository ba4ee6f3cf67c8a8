// Prints the rows of tables, a line to a row.
use listing::FileRow;
use std::io;
use tables::{Account, Group};
use text::Name;
use trust::{Domain, TrustLine, TrustWord};

pub fn print_hosts(rt: &HostRuntime, hosts: &[Name]) -> io::Result<()> {
    for host in hosts {
        rt.write_all(host.as_slice())?;
        rt.write_all(b"\n")?;
    }
    Ok(())
}

pub fn print_accounts(rt: &HostRuntime, accounts: &[Account]) -> io::Result<()> {
    for account in accounts {
        rt.write_all(account.name.as_slice())?;
        print!(rt; " {} {} ", account.number, account.group)?;
        rt.write_all(account.home.as_slice())?;
        rt.write_all(b"\n")?;
    }
    Ok(())
}

pub fn print_groups(rt: &HostRuntime, groups: &[Group]) -> io::Result<()> {
    for group in groups {
        rt.write_all(group.name.as_slice())?;
        print!(rt; " {}", group.number)?;
        for (place, listed) in group.listed.iter().enumerate() {
            if *listed {
                print!(rt; " {place}")?;
            }
        }
        rt.write_all(b"\n")?;
    }
    Ok(())
}

// The rows that are present.
pub fn print_files(rt: &HostRuntime, files: &[FileRow]) -> io::Result<()> {
    for (row, file) in files.iter().enumerate() {
        if let Some(stat) = file.stat {
            print!(rt; "{row} under {} ", file.above)?;
            rt.write_all(file.path.as_slice())?;
            println!(rt; " {} {} {:o}", stat.owner, stat.group, stat.mode)?;
        }
    }
    Ok(())
}

fn print_word(rt: &HostRuntime, word: TrustWord) -> io::Result<()> {
    match word {
        TrustWord::Anyone => rt.write_all(b"anyone"),
        TrustWord::Named(name) => rt.write_all(name.as_slice()),
    }
}

pub fn print_trust(rt: &HostRuntime, lines: &[TrustLine]) -> io::Result<()> {
    for line in lines {
        print_word(rt, line.host)?;
        if let Some(user) = line.user {
            rt.write_all(b" as ")?;
            print_word(rt, user)?;
        }
        rt.write_all(b"\n")?;
    }
    Ok(())
}

pub fn print_domain(rt: &HostRuntime, domain: Option<Domain>) -> io::Result<()> {
    match domain {
        Some(domain) => {
            rt.write_all(domain.name.as_slice())?;
            println!(rt; " at host {}", domain.server)
        }
        None => rt.write_all(b"none\n"),
    }
}
