//! The schema of NFS version 2.

/// The procedures and structures of NFS version 2 (RFC 1094, section 2), as a `.x` text.
pub const NFS2_X: &[u8] = b"\
const MAXDATA = 8192;
const MAXPATHLEN = 1024;
const MAXNAMLEN = 255;
const COOKIESIZE = 4;
const FHSIZE = 32;
enum stat {
  NFS_OK = 0, NFSERR_PERM = 1, NFSERR_NOENT = 2, NFSERR_IO = 5,
  NFSERR_NXIO = 6, NFSERR_ACCES = 13, NFSERR_EXIST = 17,
  NFSERR_NODEV = 19, NFSERR_NOTDIR = 20, NFSERR_ISDIR = 21,
  NFSERR_FBIG = 27, NFSERR_NOSPC = 28, NFSERR_ROFS = 30,
  NFSERR_NAMETOOLONG = 63, NFSERR_NOTEMPTY = 66, NFSERR_DQUOT = 69,
  NFSERR_STALE = 70, NFSERR_WFLUSH = 99 };
enum ftype { NFNON = 0, NFREG = 1, NFDIR = 2, NFBLK = 3, NFCHR = 4, NFLNK = 5 };
typedef opaque fhandle[FHSIZE];
typedef opaque nfscookie[COOKIESIZE];
typedef opaque nfsdata<MAXDATA>;
typedef string filename<MAXNAMLEN>;
typedef string path<MAXPATHLEN>;
struct timeval { unsigned seconds; unsigned useconds; };
struct fattr {
  ftype type; unsigned mode; unsigned nlink; unsigned uid; unsigned gid;
  unsigned size; unsigned blocksize; unsigned rdev; unsigned blocks;
  unsigned fsid; unsigned fileid;
  timeval atime; timeval mtime; timeval ctime; };
struct sattr { unsigned mode; unsigned uid; unsigned gid; unsigned size;
  timeval atime; timeval mtime; };
union attrstat switch (stat status) {
  case NFS_OK: fattr attributes; default: void; };
struct diropargs { fhandle dir; filename name; };
union diropres switch (stat status) {
  case NFS_OK: struct { fhandle file; fattr attributes; } diropok;
  default: void; };
struct sattrargs { fhandle file; sattr attributes; };
union readlinkres switch (stat status) {
  case NFS_OK: path data; default: void; };
struct readargs { fhandle file; unsigned offset; unsigned count;
  unsigned totalcount; };
union readres switch (stat status) {
  case NFS_OK: struct { fattr attributes; nfsdata data; } readok;
  default: void; };
struct writeargs { fhandle file; unsigned beginoffset; unsigned offset;
  unsigned totalcount; nfsdata data; };
struct createargs { diropargs where; sattr attributes; };
struct renameargs { diropargs from; diropargs to; };
struct linkargs { fhandle from; diropargs to; };
struct symlinkargs { diropargs from; path to; sattr attributes; };
struct readdirargs { fhandle dir; nfscookie cookie; unsigned count; };
struct entry { unsigned fileid; filename name; nfscookie cookie;
  entry *nextentry; };
union readdirres switch (stat status) {
  case NFS_OK: struct { entry *entries; bool eof; } readdirok;
  default: void; };
union statfsres switch (stat status) {
  case NFS_OK: struct { unsigned tsize; unsigned bsize; unsigned blocks;
    unsigned bfree; unsigned bavail; } info;
  default: void; };
program NFS_PROGRAM { version NFS_VERSION {
  void NFSPROC_NULL(void) = 0;
  attrstat NFSPROC_GETATTR(fhandle) = 1;
  attrstat NFSPROC_SETATTR(sattrargs) = 2;
  void NFSPROC_ROOT(void) = 3;
  diropres NFSPROC_LOOKUP(diropargs) = 4;
  readlinkres NFSPROC_READLINK(fhandle) = 5;
  readres NFSPROC_READ(readargs) = 6;
  void NFSPROC_WRITECACHE(void) = 7;
  attrstat NFSPROC_WRITE(writeargs) = 8;
  diropres NFSPROC_CREATE(createargs) = 9;
  stat NFSPROC_REMOVE(diropargs) = 10;
  stat NFSPROC_RENAME(renameargs) = 11;
  stat NFSPROC_LINK(linkargs) = 12;
  stat NFSPROC_SYMLINK(symlinkargs) = 13;
  diropres NFSPROC_MKDIR(createargs) = 14;
  stat NFSPROC_RMDIR(diropargs) = 15;
  readdirres NFSPROC_READDIR(readdirargs) = 16;
  statfsres NFSPROC_STATFS(fhandle) = 17;
} = 2; } = 100003;
";
