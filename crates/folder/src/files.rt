// Opens the texts of a region's folder, and reads them into a site.
use crate::stopped::Stopped;
use reading::SiteFault;
use site::OpenSite;
use std::fs::File;
use std::io;
use std::io::Read;

// All bytes of an input.
pub fn bytes_of(rt: &HostRuntime, mut input: impl Read + Drop) -> io::Result<Vec<u8>> {
    let mut bytes = Vec::new(rt.alloc());
    input.read_to_end(&mut bytes)?;
    Ok(bytes)
}

// A region's folder.
#[derive(Clone, Copy)]
struct Folder<'a> {
    rt: &'a HostRuntime,
    name: &'a str,
}

impl<'a> Folder<'a> {
    // Reads the file at a path, at most one byte more than a text may have. A file that won't open is unread.
    fn read<F: FnOnce(&[u8]) -> Result<(), SiteFault>>(
        &self,
        path: &str,
        read: F,
    ) -> Result<(), Stopped>
        requires { F.IsAlwaysCallable read }
    {
        let Ok(file) = File::open(self.rt, path) else {
            return Ok(());
        };
        let text = bytes_of(self.rt, file.take(8193))?;
        read(text.as_slice())?;
        Ok(())
    }

    // Reads a text of a host.
    fn read_text<F: FnOnce(&[u8]) -> Result<(), SiteFault>>(
        &self,
        host: u8,
        text: &str,
        read: F,
    ) -> Result<(), Stopped>
        requires { F.IsAlwaysCallable read }
    {
        let folder = self.name;
        let path = format!(in self.rt.alloc(); "{folder}/{host}.{text}")?;
        self.read(path.as_str(), read)
    }

    fn read_host(&self, site: &mut OpenSite, host: u8) -> Result<(), Stopped> {
        self.read_text(host, "passwd", |text| site.read_passwd(host, text))?;
        self.read_text(host, "group", |text| site.read_group(host, text))?;
        self.read_text(host, "mtree", |text| site.read_mtree(host, text))?;
        self.read_text(host, "equiv", |text| site.read_equiv(host, text))?;
        self.read_text(host, "ypconf", |text| site.read_ypconf(host, text))?;
        let accounts = site
            .hosts()
            .get(host as usize)
            .map_or(0, |t| t.account_count());
        for account in (0..16u8).take(accounts) {
            let name = format!(in self.rt.alloc(); "rhosts.{account}")?;
            self.read_text(host, name.as_str(), |text| {
                site.read_rhosts(host, account, text)
            })?;
        }
        Ok(())
    }
}

// Reads whatever opens of a region's folder.
pub fn read_region(rt: &HostRuntime, name: &str) -> Result<OpenSite, Stopped> {
    let folder = Folder { rt, name };
    let mut site = OpenSite::new(rt.alloc())?;
    let path = format!(in rt.alloc(); "{name}/hosts")?;
    folder.read(path.as_str(), |text| site.read_hosts(text))?;
    for host in (0..8u8).take(site.hosts().len()) {
        folder.read_host(&mut site, host)?;
    }
    Ok(site)
}
